// Arithmetic.

ghost use Rattle.std.specs.Prelude.{◌≡◌, ◌<◌, true, length, IfOk, Bool, max, ◌+◌};
ghost use Rattle.cell_core.specs.xdp_machine.Arithmetic.{bits_in, low, arithmetic, negated};
ghost use Rattle.cell_core.specs.Formed.{AreFormed};
ghost use Rattle.operator_cells.specs.Making.{seen, Makes, is_one, operator_of};
ghost use Rattle.cell_core.specs.Cells.{bit, is_heavy};
ghost use Rattle.operator_cells.specs.Rising.{Rises};

use crate::cells::{constant, operate, slice};
use cell_core::cell::Cell;
use cell_core::laws::values_fit;
use cell_core::operator::Operator;
use cell_core::xdp_state::bpf_isa::{AluCode, Width};
use std::alloc::AllocError;

/// How many bits an operation works on.
pub fn bits(width: Width) -> u32
    ensures { result ≡ bits_in width }
{
    match width {
        Width::Bits32 => 32,
        Width::Bits64 => 64,
    }
}

// The operator of arithmetic that is one operator.
fn operator(code: AluCode) -> Operator
    ensures { result ≡ operator_of code }
{
    match code {
        AluCode::Add => Operator::Add,
        AluCode::Sub => Operator::Sub,
        AluCode::Mul => Operator::Mul,
        AluCode::Or => Operator::Or,
        AluCode::Xor => Operator::Xor,
        _ => Operator::And,
    }
}

/// The low bits of a number, in a cell of so many.
pub fn cut(cells: &mut Vec<Cell>, width: Width, a: u32) -> Result<u32, AllocError>
    requires formed { AreFormed (seen cells.old.items) }
    requires there { a < length (seen cells.old.items) }
    ensures makes { IfOk result (λ c. Makes (seen cells.old.items) (seen cells.new.items) c (λ packet v. low (bits_in width) (v a))) }
    ensures rises { IfOk result (λ c. Rises (seen cells.old.items) (seen cells.new.items) c (λ row. row a)) }
{
    values_fit();
    match width {
        Width::Bits32 => {
            let c = slice(cells, a, 0, 32)?;
            Ok(c)
        }
        Width::Bits64 => Ok(a),
    }
}

/// Arithmetic on the low bits of two numbers by one operator.
pub fn combine(
    cells: &mut Vec<Cell>,
    code: AluCode,
    width: Width,
    a: u32,
    b: u32,
) -> Result<u32, AllocError>
    requires formed { AreFormed (seen cells.old.items) }
    requires one { is_one code ≡ true }
    requires left { a < length (seen cells.old.items) }
    requires right { b < length (seen cells.old.items) }
    ensures makes { (signed : Bool) → IfOk result (λ c. Makes (seen cells.old.items) (seen cells.new.items) c (λ packet v. arithmetic code signed (bits_in width) (low (bits_in width) (v a)) (low (bits_in width) (v b)))) }
    ensures rises { IfOk result (λ c. Rises (seen cells.old.items) (seen cells.new.items) c (λ row. max (row a) (row b) + bit (is_heavy (operator_of code)))) }
{
    let x = cut(cells, width, a)?;
    let y = cut(cells, width, b)?;
    let c = operate(cells, operator(code), &[x, y], 0, bits(width))?;
    Ok(c)
}

/// The number with the other sign.
pub fn negate(cells: &mut Vec<Cell>, width: Width, a: u32) -> Result<u32, AllocError>
    requires formed { AreFormed (seen cells.old.items) }
    requires there { a < length (seen cells.old.items) }
    ensures makes { IfOk result (λ c. Makes (seen cells.old.items) (seen cells.new.items) c (λ packet v. negated (bits_in width) (v a))) }
    ensures rises { IfOk result (λ c. Rises (seen cells.old.items) (seen cells.new.items) c (λ row. row a + 1)) }
{
    let x = cut(cells, width, a)?;
    let zero = constant(cells, 0, 1)?;
    let c = operate(cells, Operator::Sub, &[zero, x], 0, bits(width))?;
    Ok(c)
}
