// Shifts.

ghost use Rattle.std.specs.Prelude.{ℕ, ◌≡◌, ◌<◌, ◌-◌, ◌/◌, ◌^◌, ◌*◌, ◌%◌, length, IfOk, Bool, max, ◌+◌};
ghost use Rattle.cell_core.specs.bits_core.Bits.{arsh_of};
ghost use Rattle.cell_core.specs.xdp_machine.Arithmetic.{bits_in, low, arithmetic};
ghost use Rattle.cell_core.specs.Cells.{bits_from};
ghost use Rattle.cell_core.specs.Formed.{AreFormed};
ghost use Rattle.operator_cells.specs.Making.{seen, Makes};
ghost use Rattle.operator_cells.specs.Shifting.{count_bits};
ghost use Rattle.operator_cells.specs.Rising.{Rises};

use crate::cells::{constant, operate, slice};
use crate::working::{bits, cut};
use cell_core::cell::Cell;
use cell_core::operator::Operator;
use cell_core::xdp_state::bpf_isa::{AluCode, Width};
use std::alloc::AllocError;

/// A shift to the left by a known count: so many zeros below a number.
pub fn raise(cells: &mut Vec<Cell>, width: Width, a: u32, count: u32) -> Result<u32, AllocError>
    requires there { a < length (seen cells.old.items) }
    requires count { count < bits_in width }
    ensures makes { IfOk result (λ c. Makes (seen cells.old.items) (seen cells.new.items) c (λ packet v. low (bits_in width) (low (bits_in width) (v a) * 2 ^ count))) }
    ensures rises { IfOk result (λ c. Rises (seen cells.old.items) (seen cells.new.items) c (λ row. row a)) }
{
    let zero = constant(cells, 0, 1)?;
    let c = operate(cells, Operator::Join(count), &[a, zero], 0, bits(width))?;
    Ok(c)
}

/// A shift to the right by a known count: a number without so many of its low bits.
pub fn lower(cells: &mut Vec<Cell>, width: Width, a: u32, count: u32) -> Result<u32, AllocError>
    requires there { a < length (seen cells.old.items) }
    requires count { count < bits_in width }
    ensures makes { IfOk result (λ c. Makes (seen cells.old.items) (seen cells.new.items) c (λ packet v. low (bits_in width) (v a) / 2 ^ count)) }
    ensures rises { IfOk result (λ c. Rises (seen cells.old.items) (seen cells.new.items) c (λ row. row a)) }
{
    let c = slice(cells, a, count, bits(width) - count)?;
    Ok(c)
}

// How many bits the count of a shift has.
fn count_bits(width: Width) -> u32
    ensures { result ≡ count_bits width }
{
    match width {
        Width::Bits32 => 5,
        Width::Bits64 => 6,
    }
}

/// A shift to the left by a count that is not known.
pub fn shift_left(cells: &mut Vec<Cell>, width: Width, a: u32, b: u32) -> Result<u32, AllocError>
    requires formed { AreFormed (seen cells.old.items) }
    requires left { a < length (seen cells.old.items) }
    requires right { b < length (seen cells.old.items) }
    ensures makes { (signed : Bool) → IfOk result (λ c. Makes (seen cells.old.items) (seen cells.new.items) c (λ packet v. arithmetic AluCode.Lsh signed (bits_in width) (low (bits_in width) (v a)) (low (bits_in width) (v b)))) }
    ensures rises { IfOk result (λ c. Rises (seen cells.old.items) (seen cells.new.items) c (λ row. max (row a) (row b) + 1)) }
{
    let x = cut(cells, width, a)?;
    let count = slice(cells, b, 0, count_bits(width))?;
    let c = operate(cells, Operator::ShiftLeft, &[x, count], 0, bits(width))?;
    Ok(c)
}

/// A shift to the right by a count that is not known.
pub fn shift_right(cells: &mut Vec<Cell>, width: Width, a: u32, b: u32) -> Result<u32, AllocError>
    requires formed { AreFormed (seen cells.old.items) }
    requires left { a < length (seen cells.old.items) }
    requires right { b < length (seen cells.old.items) }
    ensures makes { (signed : Bool) → IfOk result (λ c. Makes (seen cells.old.items) (seen cells.new.items) c (λ packet v. arithmetic AluCode.Rsh signed (bits_in width) (low (bits_in width) (v a)) (low (bits_in width) (v b)))) }
    ensures rises { IfOk result (λ c. Rises (seen cells.old.items) (seen cells.new.items) c (λ row. max (row a) (row b) + 1)) }
{
    let x = cut(cells, width, a)?;
    let count = slice(cells, b, 0, count_bits(width))?;
    let c = operate(cells, Operator::ShiftRight, &[x, count], 0, bits(width))?;
    Ok(c)
}

/// A shift to the right by a known count that keeps the sign.
pub fn lower_signed(
    cells: &mut Vec<Cell>,
    width: Width,
    a: u32,
    count: u32,
) -> Result<u32, AllocError>
    requires there { a < length (seen cells.old.items) }
    requires count { count < bits_in width }
    ensures makes { IfOk result (λ c. Makes (seen cells.old.items) (seen cells.new.items) c (λ packet v. arsh_of (low (bits_in width) (v a)) count (bits_in width))) }
    ensures rises { IfOk result (λ c. Rises (seen cells.old.items) (seen cells.new.items) c (λ row. row a)) }
{
    let rest = lower(cells, width, a, count)?;
    let left = bits(width) - count;
    let c = operate(cells, Operator::SignExtend(left), &[rest], 0, bits(width))?;
    Ok(c)
}

// The bits of a number, each turned.
fn complement(cells: &mut Vec<Cell>, width: Width, a: u32) -> Result<u32, AllocError>
    requires { a < length (seen cells.old.items) }
    ensures makes { IfOk result (λ c. Makes (seen cells.old.items) (seen cells.new.items) c (λ packet v. bits_from (2 ^ 64 - 1 - v a) 0 (bits_in width))) }
    ensures rises { IfOk result (λ c. Rises (seen cells.old.items) (seen cells.new.items) c (λ row. row a)) }
{
    let c = operate(cells, Operator::Not, &[a], 0, bits(width))?;
    Ok(c)
}

// A number moved down.
fn move_down(cells: &mut Vec<Cell>, width: Width, a: u32, count: u32) -> Result<u32, AllocError>
    requires left { a < length (seen cells.old.items) }
    requires right { count < length (seen cells.old.items) }
    ensures makes { IfOk result (λ c. Makes (seen cells.old.items) (seen cells.new.items) c (λ packet v. bits_from (low 64 (v a) / 2 ^ (low 64 (v count) % 64)) 0 (bits_in width))) }
    ensures rises { IfOk result (λ c. Rises (seen cells.old.items) (seen cells.new.items) c (λ row. max (row a) (row count) + 1)) }
{
    let c = operate(cells, Operator::ShiftRight, &[a, count], 0, bits(width))?;
    Ok(c)
}

/// A shift to the right by a count that is not known that keeps the sign.
pub fn shift_signed(cells: &mut Vec<Cell>, width: Width, a: u32, b: u32) -> Result<u32, AllocError>
    requires formed { AreFormed (seen cells.old.items) }
    requires left { a < length (seen cells.old.items) }
    requires right { b < length (seen cells.old.items) }
    ensures makes { (signed : Bool) → IfOk result (λ c. Makes (seen cells.old.items) (seen cells.new.items) c (λ packet v. arithmetic AluCode.Arsh signed (bits_in width) (low (bits_in width) (v a)) (low (bits_in width) (v b)))) }
    ensures rises { IfOk result (λ c. Rises (seen cells.old.items) (seen cells.new.items) c (λ row. max (row a) (row b) + 1)) }
{
    let x = cut(cells, width, a)?;
    let count = slice(cells, b, 0, count_bits(width))?;
    let sign = slice(cells, x, bits(width) - 1, 1)?;
    let other = complement(cells, width, x)?;
    let moved = move_down(cells, width, other, count)?;
    let back = complement(cells, width, moved)?;
    let plain = move_down(cells, width, x, count)?;
    let c = operate(
        cells,
        Operator::Select,
        &[sign, back, plain],
        0,
        bits(width),
    )?;
    Ok(c)
}
