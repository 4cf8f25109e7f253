// Division.

ghost use Rattle.std.specs.Prelude.{◌≡◌, ◌<◌, ◌==◌, if◌then◌else◌, false, true, length, IfOk, max, ◌+◌};
ghost use Rattle.cell_core.specs.xdp_machine.Arithmetic.{bits_in, low, arithmetic, negated};
ghost use Rattle.cell_core.specs.Cells.{on};
ghost use Rattle.cell_core.specs.Formed.{AreFormed};
ghost use Rattle.operator_cells.specs.Making.{seen, Makes};
ghost use Rattle.operator_cells.specs.Dividing.{code_of, sign_of};
ghost use Rattle.operator_cells.specs.Rising.{Rises};

use crate::cells::{constant, divide_some, operate, slice};
use crate::comparing::equal;
use crate::working::{bits, cut};
use cell_core::cell::Cell;
use cell_core::operator::Operator;
use cell_core::xdp_state::bpf_isa::Width;
use std::alloc::AllocError;

// What stands for a division by 0: of a remainder the first number, of a quotient 0.
fn instead(rest: bool, a: u32, zero: u32) -> u32
    ensures { result ≡ (if rest then a else zero) }
{
    if rest { a } else { zero }
}

// A result of a division, where the second number is not 0.
fn unless_zero(
    cells: &mut Vec<Cell>,
    rest: bool,
    width: Width,
    a: u32,
    b: u32,
    n: u32,
) -> Result<u32, AllocError>
    requires left { a < length (seen cells.old.items) }
    requires right { b < length (seen cells.old.items) }
    requires result { n < length (seen cells.old.items) }
    ensures makes { IfOk result (λ c. Makes (seen cells.old.items) (seen cells.new.items) c (λ packet v. low (bits_in width) (if low 64 (v b) == 0 then (if rest then v a else 0) else v n))) }
    ensures rises { IfOk result (λ c. Rises (seen cells.old.items) (seen cells.new.items) c (λ row. max (max (row a) (row n)) (row b + 1))) }
{
    let zero = constant(cells, 0, 1)?;
    let none = equal(cells, b, zero)?;
    let other = instead(rest, a, zero);
    let c = operate(cells, Operator::Select, &[none, other, n], 0, bits(width))?;
    Ok(c)
}

/// The quotient of the low bits of two numbers, or the remainder.
pub fn divide(
    cells: &mut Vec<Cell>,
    rest: bool,
    width: Width,
    a: u32,
    b: u32,
) -> Result<u32, AllocError>
    requires formed { AreFormed (seen cells.old.items) }
    requires left { a < length (seen cells.old.items) }
    requires right { b < length (seen cells.old.items) }
    ensures makes { IfOk result (λ c. Makes (seen cells.old.items) (seen cells.new.items) c (λ packet v. arithmetic (code_of rest) false (bits_in width) (low (bits_in width) (v a)) (low (bits_in width) (v b)))) }
    ensures rises { IfOk result (λ c. Rises (seen cells.old.items) (seen cells.new.items) c (λ row. max (row a) (row b) + 1)) }
{
    let x = cut(cells, width, a)?;
    let y = cut(cells, width, b)?;
    let n = divide_some(cells, rest, x, y, bits(width))?;
    let c = unless_zero(cells, rest, width, x, y, n)?;
    Ok(c)
}

// A number with the other sign where a bit is 1. It is there with the number.
fn turn_where(cells: &mut Vec<Cell>, width: Width, sign: u32, a: u32) -> Result<u32, AllocError>
    requires sign { sign < length (seen cells.old.items) }
    requires there { a < length (seen cells.old.items) }
    ensures makes { IfOk result (λ c. Makes (seen cells.old.items) (seen cells.new.items) c (λ packet v. low (bits_in width) (if on (v sign) then negated (bits_in width) (v a) else v a))) }
    ensures rises { IfOk result (λ c. Rises (seen cells.old.items) (seen cells.new.items) c (λ row. max (row sign) (row a))) }
{
    let zero = constant(cells, 0, 1)?;
    let other = operate(cells, Operator::Difference, &[zero, a], 0, bits(width))?;
    let c = operate(cells, Operator::Select, &[sign, other, a], 0, bits(width))?;
    Ok(c)
}

// The bit that tells whether a result is below 0.
fn result_sign(cells: &mut Vec<Cell>, rest: bool, left: u32, right: u32) -> Result<u32, AllocError>
    requires left { left < length (seen cells.old.items) }
    requires right { right < length (seen cells.old.items) }
    ensures makes { IfOk result (λ c. Makes (seen cells.old.items) (seen cells.new.items) c (λ packet v. sign_of rest (v left) (v right))) }
    ensures rises { IfOk result (λ c. Rises (seen cells.old.items) (seen cells.new.items) c (λ row. max (row left) (row right))) }
{
    if rest {
        return Ok(left);
    }
    let c = operate(cells, Operator::Xor, &[left, right], 0, 1)?;
    Ok(c)
}

/// The quotient of the low bits of two numbers as signed ones, rounded toward 0, or the remainder.
pub fn divide_signed(
    cells: &mut Vec<Cell>,
    rest: bool,
    width: Width,
    a: u32,
    b: u32,
) -> Result<u32, AllocError>
    requires formed { AreFormed (seen cells.old.items) }
    requires left { a < length (seen cells.old.items) }
    requires right { b < length (seen cells.old.items) }
    ensures makes { IfOk result (λ c. Makes (seen cells.old.items) (seen cells.new.items) c (λ packet v. arithmetic (code_of rest) true (bits_in width) (low (bits_in width) (v a)) (low (bits_in width) (v b)))) }
    ensures rises { IfOk result (λ c. Rises (seen cells.old.items) (seen cells.new.items) c (λ row. max (row a) (row b) + 1)) }
{
    let x = cut(cells, width, a)?;
    let y = cut(cells, width, b)?;
    let left = slice(cells, x, bits(width) - 1, 1)?;
    let right = slice(cells, y, bits(width) - 1, 1)?;
    let p = turn_where(cells, width, left, x)?;
    let q = turn_where(cells, width, right, y)?;
    let n = divide_some(cells, rest, p, q, bits(width))?;
    let side = result_sign(cells, rest, left, right)?;
    let turned = turn_where(cells, width, side, n)?;
    let c = unless_zero(cells, rest, width, x, y, turned)?;
    Ok(c)
}
