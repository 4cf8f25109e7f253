//! A packet takes in a row: all cells of the row, in their order, from those that it holds.

ghost use Rattle.std.specs.Prelude.{ℕ, ◌≡◌, ◌<◌, ◌≤◌, ◌^◌, Some, length, slice_index, map as map_list};
ghost use Rattle.cell_core.specs.Cells.{number, site_in, cell_at};
ghost use Rattle.cell_core.specs.Formed.{AllFit, AreFormed, IsInRange};
ghost use Rattle.cell_core.specs.View.{program_of, cell_of};
ghost use Rattle.hazard_core.specs.StageValues.{stage_value};
ghost use Rattle.hazard_core.specs.Rows.{phi_pointer, cell_number, cell_pointer, with_made, with_row};

use crate::overlay::{answer_over, found_pointer};
use crate::pending::row_in;
use crate::pointer::Pointer;
use crate::stage_values::StageValues;
use crate::tables::Tables;
use cell_core::cell::Cell;
use cell_core::operator::Operator;
use cell_core::program::{CellProgram, PacketIn};
use cell_core::value;

/// A frame, the interface that it came by, and when it came, in nanoseconds.
#[derive(Copy, Clone)]
pub struct Source<'a> {
    pub frame: &'a [u8],
    pub ifindex: u32,
    pub time: u64,
}

ghost use Rattle.hazard_core.specs.Sourced.{packet_of, taken_of};

/// What an operator takes of the frame or of what came with it, if it is one of these.
fn taken(source: &Source, op: Operator) -> Option<u64>
    ensures { result ≡ taken_of (packet_of source.now) op }
{
    match op {
        Operator::Byte(i) => {
            let at = i as usize;
            let byte = if at < source.frame.len() {
                source.frame[at]
            } else {
                0
            };
            Some(u64::from(byte))
        }
        Operator::Length => Some(source.frame.len() as u64),
        Operator::Ifindex => Some(u64::from(source.ifindex)),
        Operator::Time => Some(source.time),
        _ => None,
    }
}

/// The number of an operator on what a packet holds. `other` is any packet: no operator that is left looks at it.
#[tactic(auto, using(crate::proofs::Made::other_packet))]
fn number(source: &Source, other: &PacketIn, op: Operator, held: &StageValues, ins: &[u32]) -> u64
    requires { IsInRange op }
    ensures { result ≡ number (packet_of source.now) op (map_list (stage_value held.now) ins.now) }
{
    match taken(source, op) {
        Some(n) => n,
        None => value::number(other, op, held.values(), ins),
    }
}

/// The pointer of the first edge that is on, or of the last.
fn phi_pointer(held: &StageValues, ins: &[u32]) -> Pointer
    ensures { result ≡ phi_pointer held.now ins.now }
{
    let mut left = ins;
    while let [edge, taken, rest @ ..] = left {
        if rest.is_empty() || held.value(*edge as usize) != 0 {
            return held.pointer(*taken as usize);
        }
        left = rest;
    }
    Pointer::Null
}

/// The number and the pointer of a cell made in row r.
fn make(
    program: &CellProgram,
    rows: &[u32],
    r: u32,
    tables: &Tables,
    source: &Source,
    other: &PacketIn,
    held: &StageValues,
    cell: &Cell,
) -> (u64, Pointer)
    requires in_range { IsInRange cell.now.op }
    requires site { (j : ℕ) → site_in cell.now.op ≡ Some j → j < length program.now.sites.items }
    requires few { length program.now.sites.items < 2 ^ 32 }
    requires fits { AllFit tables.now.decls (program_of program.now).sites }
    ensures number { result.0 ≡ cell_number (program_of program.now) (slice_index rows.now) r tables.now (packet_of source.now) held.now (cell_of cell.now) cell.now.op }
    ensures pointer { result.1 ≡ cell_pointer (program_of program.now) (slice_index rows.now) r tables.now held.now (cell_of cell.now) cell.now.op }
{
    let ins: &[u32] = &cell.ins;
    match cell.op {
        Operator::Found(j) => {
            let found = found_pointer(program, rows, r, tables, held, j as usize);
            (if found.is_null() { 0 } else { 1 }, found)
        }
        Operator::Answer(j) => {
            let answer = answer_over(program, rows, r, tables, held, j as usize);
            (answer, Pointer::Null)
        }
        Operator::Wire => {
            let from = if ins.is_empty() { 0 } else { ins[0] };
            let pointer = held.pointer(from as usize);
            (number(source, other, cell.op, held, ins), pointer)
        }
        Operator::Phi => {
            let pointer = phi_pointer(held, ins);
            (number(source, other, cell.op, held, ins), pointer)
        }
        _ => (number(source, other, cell.op, held, ins), Pointer::Null),
    }
}

/// A cell of a program whose cells are well formed.
fn formed_cell(program: &CellProgram, k: usize) -> &Cell
    requires cell { k < length program.now.cells.items }
    requires formed { AreFormed (program_of program.now).cells }
    ensures cell { cell_of result.now ≡ cell_at (program_of program.now).cells k }
    ensures op { result.now.op ≡ (cell_at (program_of program.now).cells k).op }
    ensures in_range { IsInRange result.now.op }
    ensures from { result.now.from ≤ 63 }
    ensures width { result.now.width ≤ 64 }
{
    &program.cells[k]
}

/// Takes in cell k, if it is of row r.
#[tactic(auto, using(crate::proofs::Made::made_here, crate::proofs::Made::made_not))]
fn take_cell(
    program: &CellProgram,
    rows: &[u32],
    r: u32,
    tables: &Tables,
    source: &Source,
    other: &PacketIn,
    k: usize,
    held: &mut StageValues,
)
    requires cell { k < length program.now.cells.items }
    requires formed { AreFormed (program_of program.now).cells }
    requires sites { (k j : ℕ) → k < length program.now.cells.items → site_in (cell_at (program_of program.now).cells k).op ≡ Some j → j < length program.now.sites.items }
    requires few { length program.now.sites.items < 2 ^ 32 }
    requires fits { AllFit tables.now.decls (program_of program.now).sites }
    ensures { held.new ≡ with_made (program_of program.now) (slice_index rows.now) r tables.now (packet_of source.now) held.old k (cell_at (program_of program.now).cells k) }
{
    if row_in(rows, k) == r {
        let cell = formed_cell(program, k);
        let (n, pointer) = make(program, rows, r, tables, source, other, held, cell);
        held.set(k, value::bits_from(n, cell.from, cell.width), pointer);
    }
}

/// Takes in row r, on the tables as they are. `other` is any packet.
#[tactic(auto, using(crate::proofs::Made::made_more, crate::proofs::Made::made_all), unfolding(crate::specs::Rows::with_row))]
pub fn take_row(
    program: &CellProgram,
    rows: &[u32],
    r: u32,
    tables: &Tables,
    source: &Source,
    other: &PacketIn,
    held: &mut StageValues,
)
    requires formed { AreFormed (program_of program.now).cells }
    requires sites { (k j : ℕ) → k < length program.now.cells.items → site_in (cell_at (program_of program.now).cells k).op ≡ Some j → j < length program.now.sites.items }
    requires few { length program.now.sites.items < 2 ^ 32 }
    requires fits { AllFit tables.now.decls (program_of program.now).sites }
    ensures { held.new ≡ with_row (program_of program.now) (slice_index rows.now) r tables.now (packet_of source.now) held.old }
{
    for k in 0..program.cells.len() {
        take_cell(program, rows, r, tables, source, other, k, held);
    }
}
