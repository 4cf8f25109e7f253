//! The conditions of jumps.

ghost use Rattle.std.specs.Prelude.{◌≡◌, ◌<◌, ◌+◌, max, true, length, IfOk};
ghost use Rattle.xdp_machine.specs.Arithmetic.{low, bits_in, holds};
ghost use Rattle.cell_core.specs.Cells.{bit, on};
ghost use Rattle.cell_core.specs.Formed.{AreFormed};
ghost use Rattle.operator_cells.specs.Making.{seen, Makes};
ghost use Rattle.operator_cells.specs.Rising.{Rises};
ghost use Rattle.operator_cells.specs.HeldCells.RegisterCells.{pointed, number_of, IsThere};
ghost use Rattle.operator_cells.specs.HeldCells.Rows.{number_row, value_row};
ghost use Rattle.edge_cells.specs.Testing.{is_open, is_equal, null_holds, place_of, found_of, HasPointer, IsReady, is_number, Tests};

use crate::part::number_in;
use cell_core::cell::Cell;
use cell_core::laws::values_fit;
use cell_core::operator::Operator;
use kind_core::{Kind, Number};
use operator_cells::cells::{constant, operate};
use operator_cells::comparing::{compare, equal, not};
use operator_cells::held_cells::machine_cells::Pointer;
use operator_cells::held_cells::operand::number_cell;
use std::alloc::AllocError;
use xdp_machine::bpf_isa::{JumpCode, Width};

// A condition on numbers.
fn compare_numbers(
    cells: &mut Vec<Cell>,
    width: Width,
    code: JumpCode,
    x: Number,
    p: u32,
    y: Number,
    q: u32,
) -> Result<u32, AllocError>
    requires formed { AreFormed (seen cells.old.items) }
    requires left { IsThere (length (seen cells.old.items)) x p }
    requires right { IsThere (length (seen cells.old.items)) y q }
    ensures makes { IfOk result (λ c. Makes (seen cells.old.items) (seen cells.new.items) c (λ packet v. bit (holds code (bits_in width) (low (bits_in width) (number_of v x p)) (low (bits_in width) (number_of v y q))))) }
    ensures rises { IfOk result (λ c. Rises (seen cells.old.items) (seen cells.new.items) c (λ row. 1 + max (number_row row x p) (number_row row y q))) }
{
    let a = number_cell(cells, x, p)?;
    let b = number_cell(cells, y, q)?;
    let c = compare(cells, code, width, a, b)?;
    Ok(c)
}

// Where a pointer into the packet leads, or its end.
fn place(cells: &mut Vec<Cell>, kind: Kind) -> Result<u32, AllocError>
    ensures makes { IfOk result (λ c. Makes (seen cells.old.items) (seen cells.new.items) c (λ packet v. low 64 (place_of packet kind))) }
    ensures rises { IfOk result (λ c. Rises (seen cells.old.items) (seen cells.new.items) c (λ row. 0)) }
{
    match kind {
        Kind::Packet(o) => {
            let c = constant(cells, u64::from(o), 64)?;
            Ok(c)
        }
        _ => {
            let c = operate(cells, Operator::Length, &[], 0, 64)?;
            Ok(c)
        }
    }
}

// A condition on places in the packet.
fn compare_places(
    cells: &mut Vec<Cell>,
    code: JumpCode,
    a: Kind,
    b: Kind,
) -> Result<u32, AllocError>
    requires { AreFormed (seen cells.old.items) }
    ensures makes { IfOk result (λ c. Makes (seen cells.old.items) (seen cells.new.items) c (λ packet v. bit (holds code 64 (low 64 (low 64 (place_of packet a))) (low 64 (low 64 (place_of packet b)))))) }
    ensures rises { IfOk result (λ c. Rises (seen cells.old.items) (seen cells.new.items) c (λ row. 1)) }
{
    let p = place(cells, a)?;
    let q = place(cells, b)?;
    let c = compare(cells, code, Width::Bits64, p, q)?;
    Ok(c)
}

// Whether a condition on null is that it is equal.
fn is_equal(code: JumpCode) -> bool
    ensures { result ≡ is_equal code }
{
    matches!(code, JumpCode::Jeq)
}

// A condition on what a lookup answered and null, by the bit that tells whether it found the key.
fn compare_null(cells: &mut Vec<Cell>, code: JumpCode, found: u32) -> Result<u32, AllocError>
    requires formed { AreFormed (seen cells.old.items) }
    requires there { found < length (seen cells.old.items) }
    ensures makes { IfOk result (λ c. Makes (seen cells.old.items) (seen cells.new.items) c (λ packet v. bit (null_holds code (on (v found))))) }
    ensures rises { IfOk result (λ c. Rises (seen cells.old.items) (seen cells.new.items) c (λ row. 1 + row found)) }
{
    values_fit();
    let zero = constant(cells, 0, 1)?;
    let null = equal(cells, found, zero)?;
    if is_equal(code) {
        return Ok(null);
    }
    let c = not(cells, null)?;
    Ok(c)
}

// Whether a kind is a number.
fn is_number(kind: Kind) -> bool
    ensures { result ≡ is_number kind }
{
    matches!(kind, Kind::Num(_))
}

// The found bit of what a lookup answered.
fn found_of(pointers: &[Pointer], kind: Kind, p: u32) -> Option<u32>
    requires { HasPointer (length (pointed pointers.now)) kind p }
    ensures { result ≡ found_of (pointed pointers.now) kind p }
{
    match kind {
        Kind::Maybe(_, _) => Some(pointers[p as usize].found),
        _ => None,
    }
}

/// The condition of an undecided jump, on values of these kinds: a bit that is 1 where the jump is taken.
pub fn condition(
    cells: &mut Vec<Cell>,
    pointers: &[Pointer],
    width: Width,
    code: JumpCode,
    a: Kind,
    p: u32,
    b: Kind,
    q: u32,
) -> Result<u32, AllocError>
    requires formed { AreFormed (seen cells.old.items) }
    requires left { IsReady (length (seen cells.old.items)) (pointed pointers.now) a p }
    requires right { IsReady (length (seen cells.old.items)) (pointed pointers.now) b q }
    requires open { is_open width code a b ≡ true }
    ensures tests { IfOk result (λ c. Tests (pointed pointers.now) width code a p b q (seen cells.old.items) (seen cells.new.items) c) }
    ensures rises { IfOk result (λ c. Rises (seen cells.old.items) (seen cells.new.items) c (λ row. 1 + max (value_row row (pointed pointers.now) a p) (value_row row (pointed pointers.now) b q))) }
{
    if let Some(found) = found_of(pointers, a, p) {
        let c = compare_null(cells, code, found)?;
        return Ok(c);
    }
    if let Some(found) = found_of(pointers, b, q) {
        let c = compare_null(cells, code, found)?;
        return Ok(c);
    }
    if is_number(a) {
        let c = compare_numbers(cells, width, code, number_in(a), p, number_in(b), q)?;
        return Ok(c);
    }
    let c = compare_places(cells, code, a, b)?;
    Ok(c)
}
