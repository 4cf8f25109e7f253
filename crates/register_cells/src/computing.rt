//! Operations on numbers, of which some are known.

ghost use Rattle.std.specs.Prelude.{◌≡◌, ◌<◌, true, ℕ, length, IfOk, List, max, ◌≤◌, ◌+◌, ◌⊎◌};
ghost use Rattle.cell_core.specs.xdp_machine.Arithmetic.{bits_in, low, arithmetic, negated, extended, ordered};
ghost use Rattle.cell_core.specs.xdp_machine.Memory.{bytes_in, number_at};
ghost use Rattle.byteorder.specs.Endian.{little_bytes};
ghost use Rattle.kind_core.specs.Numbers.{number_arithmetic, number_negated, number_extended, number_part, number_ordered};
ghost use Rattle.cell_core.specs.Formed.{AreFormed};
ghost use Rattle.operator_cells.specs.Making.{seen, Makes};
ghost use Rattle.kind_core.specs.NumberBounds.{any_number};
ghost use Rattle.kind_core.specs.declared.kind.Kind.TheVariants.{Num};
ghost use Rattle.operator_cells.specs.Rising.{Rises};
ghost use Rattle.operator_cells.specs.HeldCells.RegisterCells.{PointerView, number_of, IsThere};
ghost use Rattle.operator_cells.specs.HeldCells.Rows.{number_row};
ghost use Rattle.register_cells.specs.Reading.{Finds};
ghost use Rattle.register_cells.specs.Shifting.{is_shift};
ghost use Rattle.register_cells.specs.Combining.{worked_row};
ghost use Rattle.register_cells.specs.Rows.{ValueTo};
ghost use Rattle.operator_cells.specs.Dividing.{code_of};

use cell_core::cell::Cell;
use cell_core::xdp_state::bpf_isa::{AluCode, Size, Src, Width};
use kind_core::Number;
use operator_cells::dividing::{divide, divide_signed};
use operator_cells::held_cells::operand::number_cell;
use operator_cells::shifting::{lower, lower_signed, raise, shift_left, shift_right, shift_signed};
use operator_cells::slicing::extend;
use operator_cells::spreading::{order, part};
use operator_cells::working::{bits, combine, cut, negate};
use std::alloc::AllocError;

// A quotient or a remainder.
fn divide_as(
    cells: &mut Vec<Cell>,
    rest: bool,
    signed: bool,
    width: Width,
    a: u32,
    b: u32,
) -> Result<u32, AllocError>
    requires formed { AreFormed (seen cells.old.items) }
    requires left { a < length (seen cells.old.items) }
    requires right { b < length (seen cells.old.items) }
    ensures makes { IfOk result (λ c. Makes (seen cells.old.items) (seen cells.new.items) c (λ packet v. arithmetic (code_of rest) signed (bits_in width) (low (bits_in width) (v a)) (low (bits_in width) (v b)))) }
    ensures rises { IfOk result (λ c. Rises (seen cells.old.items) (seen cells.new.items) c (λ row. max (row a) (row b) + 1)) }
{
    if signed {
        divide_signed(cells, rest, width, a, b)
    } else {
        divide(cells, rest, width, a, b)
    }
}

// An operation on the low bits of two numbers in cells.
fn calculate(
    cells: &mut Vec<Cell>,
    code: AluCode,
    signed: bool,
    width: Width,
    a: u32,
    b: u32,
) -> Result<u32, AllocError>
    requires formed { AreFormed (seen cells.old.items) }
    requires left { a < length (seen cells.old.items) }
    requires right { b < length (seen cells.old.items) }
    ensures makes { IfOk result (λ c. Makes (seen cells.old.items) (seen cells.new.items) c (λ packet v. arithmetic code signed (bits_in width) (low (bits_in width) (v a)) (low (bits_in width) (v b)))) }
    ensures rises { IfOk result (λ c. Rises (seen cells.old.items) (seen cells.new.items) c (λ row. worked_row code (Num (any_number 64)) (Num (any_number 64)) (row a) (row b))) }
{
    match code {
        AluCode::Mov => cut(cells, width, b),
        AluCode::Div => divide_as(cells, false, signed, width, a, b),
        AluCode::Mod => divide_as(cells, true, signed, width, a, b),
        AluCode::Lsh => shift_left(cells, width, a, b),
        AluCode::Rsh => shift_right(cells, width, a, b),
        AluCode::Arsh => shift_signed(cells, width, a, b),
        _ => combine(cells, code, width, a, b),
    }
}

// Whether it is a shift.
fn is_shift(code: AluCode) -> bool
    ensures { result ≡ is_shift code }
{
    matches!(code, AluCode::Lsh | AluCode::Rsh | AluCode::Arsh)
}

// A shift by a known number.
fn shift(
    cells: &mut Vec<Cell>,
    code: AluCode,
    signed: bool,
    width: Width,
    a: u32,
    n: u64,
) -> Result<u32, AllocError>
    requires shift { is_shift code ≡ true }
    requires there { a < length (seen cells.old.items) }
    ensures makes { IfOk result (λ c. Makes (seen cells.old.items) (seen cells.new.items) c (λ packet v. arithmetic code signed (bits_in width) (low (bits_in width) (v a)) (low (bits_in width) n))) }
    ensures rises { IfOk result (λ c. Rises (seen cells.old.items) (seen cells.new.items) c (λ row. row a)) }
{
    let count = (n % u64::from(bits(width))) as u32;
    match code {
        AluCode::Lsh => raise(cells, width, a, count),
        AluCode::Rsh => lower(cells, width, a, count),
        _ => lower_signed(cells, width, a, count),
    }
}

/// An operation on the low bits of two numbers. One that is known has no cell.
pub fn compute(
    cells: &mut Vec<Cell>,
    code: AluCode,
    signed: bool,
    width: Width,
    x: Number,
    a: u32,
    y: Number,
    b: u32,
) -> Result<u32, AllocError>
    requires formed { AreFormed (seen cells.old.items) }
    requires left { IsThere (length (seen cells.old.items)) x a }
    requires right { IsThere (length (seen cells.old.items)) y b }
    ensures finds { (s : Src) → IfOk result (λ c. Finds (seen cells.old.items) (seen cells.new.items) (number_arithmetic code signed width s x y) c (λ packet v. arithmetic code signed (bits_in width) (low (bits_in width) (number_of v x a)) (low (bits_in width) (number_of v y b)))) }
    ensures rows { (s : Src) (ps : List PointerView) → IfOk result (λ c. ValueTo (seen cells.old.items) (seen cells.new.items) ps (Num (number_arithmetic code signed width s x y)) c (λ row. worked_row code (Num y) (Num (number_arithmetic code signed width s x y)) (number_row row x a) (number_row row y b))) }
{
    match (x, y) {
        (Number::Known(_), Number::Known(_)) => Ok(0),
        (Number::Between(_, _), Number::Known(n)) if is_shift(code) => {
            let c = shift(cells, code, signed, width, a, n)?;
            Ok(c)
        }
        _ => {
            let left = number_cell(cells, x, a)?;
            let right = number_cell(cells, y, b)?;
            let c = calculate(cells, code, signed, width, left, right)?;
            Ok(c)
        }
    }
}

/// The number with the other sign.
pub fn negated(cells: &mut Vec<Cell>, width: Width, x: Number, a: u32) -> Result<u32, AllocError>
    requires formed { AreFormed (seen cells.old.items) }
    requires there { IsThere (length (seen cells.old.items)) x a }
    ensures finds { IfOk result (λ c. Finds (seen cells.old.items) (seen cells.new.items) (number_negated width x) c (λ packet v. negated (bits_in width) (number_of v x a))) }
    ensures rows { (ps : List PointerView) → IfOk result (λ c. ValueTo (seen cells.old.items) (seen cells.new.items) ps (Num (number_negated width x)) c (λ row. number_row row x a + 1)) }
{
    match x {
        Number::Known(_) => Ok(0),
        Number::Between(_, _) => {
            let c = negate(cells, width, a)?;
            Ok(c)
        }
    }
}

/// What MOV makes of a number: with a count, the sign of so many bits is extended.
pub fn extended(
    cells: &mut Vec<Cell>,
    width: Width,
    count: u32,
    x: Number,
    a: u32,
) -> Result<u32, AllocError>
    requires formed { AreFormed (seen cells.old.items) }
    requires there { IsThere (length (seen cells.old.items)) x a }
    requires count { count ≤ 64 }
    ensures finds { IfOk result (λ c. Finds (seen cells.old.items) (seen cells.new.items) (number_extended width count x) c (λ packet v. extended (bits_in width) count (number_of v x a))) }
    ensures rows { (ps : List PointerView) → IfOk result (λ c. ValueTo (seen cells.old.items) (seen cells.new.items) ps (Num (number_extended width count x)) c (λ row. number_row row x a)) }
{
    match x {
        Number::Known(_) => Ok(0),
        Number::Between(_, _) => {
            let c = extend(cells, width, count, a)?;
            Ok(c)
        }
    }
}

/// A part of a number of eight bytes.
pub fn parted(
    cells: &mut Vec<Cell>,
    size: Size,
    at: u32,
    x: Number,
    a: u32,
) -> Result<u32, AllocError>
    requires there { IsThere (length (seen cells.old.items)) x a }
    requires inside { at + bytes_in size ≤ 8 }
    ensures finds { IfOk result (λ c. Finds (seen cells.old.items) (seen cells.new.items) (number_part size at x) c (λ packet v. number_at size at (little_bytes 8 (number_of v x a)))) }
    ensures rows { (ps : List PointerView) → IfOk result (λ c. ValueTo (seen cells.old.items) (seen cells.new.items) ps (Num (number_part size at x)) c (λ row. number_row row x a)) }
{
    match x {
        Number::Known(_) => Ok(0),
        Number::Between(_, _) => {
            let c = part(cells, size, at, a)?;
            Ok(c)
        }
    }
}

/// The low bits of a number, with their bytes in an order.
pub fn ordered(
    cells: &mut Vec<Cell>,
    end: Src,
    bits: u32,
    x: Number,
    a: u32,
) -> Result<u32, AllocError>
    requires there { IsThere (length (seen cells.old.items)) x a }
    requires bits { (bits ≡ 16) ⊎ ((bits ≡ 32) ⊎ (bits ≡ 64)) }
    ensures finds { (most : ℕ) → IfOk result (λ c. Finds (seen cells.old.items) (seen cells.new.items) (number_ordered most end bits x) c (λ packet v. ordered end bits (number_of v x a))) }
    ensures rows { (most : ℕ) (ps : List PointerView) → IfOk result (λ c. ValueTo (seen cells.old.items) (seen cells.new.items) ps (Num (number_ordered most end bits x)) c (λ row. number_row row x a)) }
{
    match x {
        Number::Known(_) => Ok(0),
        Number::Between(_, _) => {
            let c = order(cells, end, bits, a)?;
            Ok(c)
        }
    }
}
