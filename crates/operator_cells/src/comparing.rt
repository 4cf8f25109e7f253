// Conditions of jumps.

ghost use Rattle.std.specs.Prelude.{◌≡◌, ◌<◌, ◌-◌, ◌^◌, ◌==◌, nat_lt, nat_le, false, length, IfOk, max, ◌+◌};
ghost use Rattle.cell_core.specs.xdp_machine.Arithmetic.{bits_in, low, holds};
ghost use Rattle.cell_core.specs.Cells.{bit};
ghost use Rattle.cell_core.specs.Formed.{AreFormed};
ghost use Rattle.operator_cells.specs.Making.{seen, Makes};
ghost use Rattle.operator_cells.specs.Comparing.{turned, is_signed, unsigned};
ghost use Rattle.operator_cells.specs.Rising.{Rises};

use crate::cells::{constant, operate, slice};
use crate::working::{bits, cut};
use cell_core::cell::Cell;
use cell_core::operator::Operator;
use cell_core::xdp_state::bpf_isa::{JumpCode, Width};
use std::alloc::AllocError;

/// The other truth.
pub fn not(cells: &mut Vec<Cell>, a: u32) -> Result<u32, AllocError>
    requires there { a < length (seen cells.old.items) }
    ensures makes { IfOk result (λ c. Makes (seen cells.old.items) (seen cells.new.items) c (λ packet v. low 1 (2 ^ 64 - 1 - v a))) }
    ensures rises { IfOk result (λ c. Rises (seen cells.old.items) (seen cells.new.items) c (λ row. row a)) }
{
    let c = operate(cells, Operator::Not, &[a], 0, 1)?;
    Ok(c)
}

/// Whether numbers are the same.
pub fn equal(cells: &mut Vec<Cell>, a: u32, b: u32) -> Result<u32, AllocError>
    requires left { a < length (seen cells.old.items) }
    requires right { b < length (seen cells.old.items) }
    ensures makes { IfOk result (λ c. Makes (seen cells.old.items) (seen cells.new.items) c (λ packet v. bit (low 64 (v a) == low 64 (v b)))) }
    ensures rises { IfOk result (λ c. Rises (seen cells.old.items) (seen cells.new.items) c (λ row. max (row a) (row b) + 1)) }
{
    let c = operate(cells, Operator::Equal, &[a, b], 0, 1)?;
    Ok(c)
}

// Whether the first number is the lesser one.
fn less(cells: &mut Vec<Cell>, a: u32, b: u32) -> Result<u32, AllocError>
    requires left { a < length (seen cells.old.items) }
    requires right { b < length (seen cells.old.items) }
    ensures makes { IfOk result (λ c. Makes (seen cells.old.items) (seen cells.new.items) c (λ packet v. bit (nat_lt (low 64 (v a)) (low 64 (v b))))) }
    ensures rises { IfOk result (λ c. Rises (seen cells.old.items) (seen cells.new.items) c (λ row. max (row a) (row b) + 1)) }
{
    let c = operate(cells, Operator::Less, &[a, b], 0, 1)?;
    Ok(c)
}

// Whether it is not the greater one.
fn at_most(cells: &mut Vec<Cell>, a: u32, b: u32) -> Result<u32, AllocError>
    requires left { a < length (seen cells.old.items) }
    requires right { b < length (seen cells.old.items) }
    ensures makes { IfOk result (λ c. Makes (seen cells.old.items) (seen cells.new.items) c (λ packet v. bit (nat_le (low 64 (v a)) (low 64 (v b))))) }
    ensures rises { IfOk result (λ c. Rises (seen cells.old.items) (seen cells.new.items) c (λ row. max (row a) (row b) + 1)) }
{
    let c = operate(cells, Operator::LessOrEqual, &[a, b], 0, 1)?;
    Ok(c)
}

// A number with the highest of so many bits turned: so the order of signed numbers is that of unsigned ones.
fn turn(cells: &mut Vec<Cell>, width: Width, a: u32) -> Result<u32, AllocError>
    requires there { a < length (seen cells.old.items) }
    ensures makes { IfOk result (λ c. Makes (seen cells.old.items) (seen cells.new.items) c (λ packet v. turned (bits_in width) (v a))) }
    ensures rises { IfOk result (λ c. Rises (seen cells.old.items) (seen cells.new.items) c (λ row. row a)) }
{
    let top = bits(width) - 1;
    let sign = slice(cells, a, top, 1)?;
    let other = not(cells, sign)?;
    let rest = slice(cells, a, 0, top)?;
    let c = operate(cells, Operator::Join(top), &[other, rest], 0, bits(width))?;
    Ok(c)
}

// Whether two numbers have a bit in common.
fn have_common(cells: &mut Vec<Cell>, a: u32, b: u32) -> Result<u32, AllocError>
    requires left { a < length (seen cells.old.items) }
    requires right { b < length (seen cells.old.items) }
    ensures makes { IfOk result (λ c. Makes (seen cells.old.items) (seen cells.new.items) c (λ packet v. bit (holds JumpCode.Jset 64 (low 64 (v a)) (low 64 (v b))))) }
    ensures rises { IfOk result (λ c. Rises (seen cells.old.items) (seen cells.new.items) c (λ row. max (row a) (row b) + 1)) }
{
    let both = operate(cells, Operator::And, &[a, b], 0, 64)?;
    let zero = constant(cells, 0, 1)?;
    let none = equal(cells, both, zero)?;
    let c = not(cells, none)?;
    Ok(c)
}

// Whether numbers differ.
fn differ(cells: &mut Vec<Cell>, a: u32, b: u32) -> Result<u32, AllocError>
    requires left { a < length (seen cells.old.items) }
    requires right { b < length (seen cells.old.items) }
    ensures makes { IfOk result (λ c. Makes (seen cells.old.items) (seen cells.new.items) c (λ packet v. bit (holds JumpCode.Jne 64 (low 64 (v a)) (low 64 (v b))))) }
    ensures rises { IfOk result (λ c. Rises (seen cells.old.items) (seen cells.new.items) c (λ row. max (row a) (row b) + 1)) }
{
    let same = equal(cells, a, b)?;
    let c = not(cells, same)?;
    Ok(c)
}

// A condition on unsigned numbers.
fn compare_plain(cells: &mut Vec<Cell>, code: JumpCode, a: u32, b: u32) -> Result<u32, AllocError>
    requires plain { is_signed code ≡ false }
    requires left { a < length (seen cells.old.items) }
    requires right { b < length (seen cells.old.items) }
    ensures makes { IfOk result (λ c. Makes (seen cells.old.items) (seen cells.new.items) c (λ packet v. bit (holds code 64 (low 64 (v a)) (low 64 (v b))))) }
    ensures rises { IfOk result (λ c. Rises (seen cells.old.items) (seen cells.new.items) c (λ row. max (row a) (row b) + 1)) }
{
    match code {
        JumpCode::Jeq => equal(cells, a, b),
        JumpCode::Jne => differ(cells, a, b),
        JumpCode::Jset => have_common(cells, a, b),
        JumpCode::Jgt => less(cells, b, a),
        JumpCode::Jge => at_most(cells, b, a),
        JumpCode::Jlt => less(cells, a, b),
        _ => at_most(cells, a, b),
    }
}

// Whether a condition is on signed numbers.
fn is_signed(code: JumpCode) -> bool
    ensures { result ≡ is_signed code }
{
    matches!(
        code,
        JumpCode::Jsgt | JumpCode::Jsge | JumpCode::Jslt | JumpCode::Jsle
    )
}

// The same condition on unsigned numbers.
fn unsigned(code: JumpCode) -> JumpCode
    ensures { result ≡ unsigned code }
{
    match code {
        JumpCode::Jsgt => JumpCode::Jgt,
        JumpCode::Jsge => JumpCode::Jge,
        JumpCode::Jslt => JumpCode::Jlt,
        JumpCode::Jsle => JumpCode::Jle,
        _ => code,
    }
}

/// A condition on the low bits of two numbers.
pub fn compare(
    cells: &mut Vec<Cell>,
    code: JumpCode,
    width: Width,
    a: u32,
    b: u32,
) -> Result<u32, AllocError>
    requires formed { AreFormed (seen cells.old.items) }
    requires left { a < length (seen cells.old.items) }
    requires right { b < length (seen cells.old.items) }
    ensures makes { IfOk result (λ c. Makes (seen cells.old.items) (seen cells.new.items) c (λ packet v. bit (holds code (bits_in width) (low (bits_in width) (v a)) (low (bits_in width) (v b))))) }
    ensures rises { IfOk result (λ c. Rises (seen cells.old.items) (seen cells.new.items) c (λ row. max (row a) (row b) + 1)) }
{
    let x = cut(cells, width, a)?;
    let y = cut(cells, width, b)?;
    if is_signed(code) {
        let p = turn(cells, width, x)?;
        let q = turn(cells, width, y)?;
        let c = compare_plain(cells, unsigned(code), p, q)?;
        return Ok(c);
    }
    let c = compare_plain(cells, code, x, y)?;
    Ok(c)
}
