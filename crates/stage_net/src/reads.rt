//! The reads of a row, site by site.

ghost use Rattle.std.specs.Prelude.{[], ◌≡◌, ◌<◌, ◌≤◌, ◌+◌, ◌==◌, ◌&&◌, ◌||◌, nat_lt, Some, length, slice_index, slice_set, IfOk};
ghost use Rattle.std.proofs.Common.{get_or};
ghost use Rattle.hazard_core.specs.cell_core.Cells.{cell_at};
ghost use Rattle.hazard_core.specs.cell_core.Formed.{AreFormed};
ghost use Rattle.hazard_core.specs.cell_core.View.{program_of};
ghost use Rattle.overlay_net.specs.cell_nets.Wires.{wires_of};
ghost use Rattle.hazard_core.specs.Keeping.{ReadsKeep};
ghost use Rattle.row_net.specs.Table.{IsTable};
ghost use Rattle.row_net.specs.SitePlace.Pointing.{IsPointers};
ghost use Rattle.stage_net.specs.Nets.{decls_of, AreNets};
ghost use Rattle.stage_net.specs.Staged.{HaveTables, IsStaged};
ghost use Rattle.stage_net.specs.Rows.{AreSlots, IsSiteRead, AreRead};

use crate::earlier::{earlier, own_site};
use crate::reading::site_reads;
use crate::row::{ProgramRow, StageNets};
use crate::searching::searches;
use block_core::block::BlockWire;
use block_core::name::Name;
use hazard_core::cell_core::program::CellProgram;
use hazard_core::cell_core::xdp_state::xdp_maps::laws::keeps_over;
use hazard_core::laws::{loads_tables, reads_keep};
use hazard_core::pending::row_in;
use hazard_core::site::{answer_cell, found_cell, site_at};
use overlay_net::cell_nets::operand::Operand;
use read_net::sites::{MapNets, ReadNets};
use std::alloc::{AllocError, Global};

// Whether a cell that there is stands in the row.
fn stands_in(at: &ProgramRow<'_>, cell: usize) -> bool
    ensures { result ≡ (nat_lt cell (length (program_of at.now.program.now).cells) && (slice_index at.now.rows.now cell == at.now.row)) }
{
    cell < at.program.cells.len() && row_in(at.rows, cell) == at.row
}

// Whether the row has a cell that reads a site, of these two.
pub(crate) fn is_read(at: &ProgramRow<'_>, found: usize, answer: usize) -> bool
    ensures { result ≡ ((nat_lt found (length (program_of at.now.program.now).cells) && (slice_index at.now.rows.now found == at.now.row)) || (nat_lt answer (length (program_of at.now.program.now).cells) && (slice_index at.now.rows.now answer == at.now.row))) }
{
    stands_in(at, found) || stands_in(at, answer)
}

// From which bit on a cell has the number of its operator; 0 past the last cell.
fn first_bit(program: &CellProgram, cell: usize) -> u8
    requires { AreFormed (program_of program.now).cells }
    ensures most { result ≤ 63 }
    ensures is { result ≡ (cell_at (program_of program.now).cells cell).from }
{
    if cell < program.cells.len() {
        program.cells[cell].from as u8
    } else {
        0
    }
}

// How many bits it has; none past the last cell.
fn width(program: &CellProgram, cell: usize) -> u8
    requires { AreFormed (program_of program.now).cells }
    ensures most { result ≤ 64 }
    ensures is { result ≡ (cell_at (program_of program.now).cells cell).width }
{
    if cell < program.cells.len() {
        program.cells[cell].width as u8
    } else {
        0
    }
}

// What stands for a map.
pub(crate) fn map_at<'a, N>(maps: &'a [MapNets<'a, N>], m: u32) -> &'a MapNets<'a, N>
    requires { m < length maps.now }
    ensures { result.now ≡ get_or maps.now m result.now }
{
    &maps[m as usize]
}

// What stands for a site.
pub(crate) fn operand_at<N: Copy>(operands: &[Operand<N>], j: u32) -> Operand<N>
    requires { j < length operands.now }
    ensures { result ≡ get_or operands.now j result }
{
    operands[j as usize]
}

// What stands for a cell from now on, if there is such a cell.
fn put<N: Copy>(table: &mut Vec<Option<Operand<N>>>, cell: usize, operand: Operand<N>)
    ensures { table.new.items ≡ slice_set table.old.items cell (Some operand) }
{
    if cell < table.len() {
        table[cell] = Some(operand);
    }
}

// What a site reads in the row, and the bits of its answer that a cell takes.
fn reads_of<P: Copy>(
    alloc: Global,
    wires: &mut Vec<BlockWire<Name<P>>>,
    part: P,
    at: &ProgramRow<'_>,
    nets: &StageNets<'_, Name<P>>,
    slots: &[Operand<Name<P>>],
    j: u32,
    answer: usize,
) -> Result<ReadNets<Name<P>>, AllocError>
    requires staged { IsStaged (program_of at.now.program.now) (slice_index at.now.rows.now) (decls_of nets.now.maps.now) nets.now.bits }
    requires nets { AreNets (program_of at.now.program.now) nets.now }
    requires tables { HaveTables (decls_of nets.now.maps.now) }
    requires slots { AreSlots (program_of at.now.program.now) nets.now slots.now }
    requires site { j < length at.now.program.now.sites.items }
    ensures { IfOk result (IsSiteRead part (program_of at.now.program.now) (slice_index at.now.rows.now) at.now.row nets.now slots.now j (cell_at (program_of at.now.program.now).cells answer).from (cell_at (program_of at.now.program.now).cells answer).width (wires_of wires.old.items) (wires_of wires.new.items)) }
{
    let map = map_at(nets.maps, site_at(at.program, j as usize).map);
    let site = own_site(at.program, nets.sites, j);
    let earlier = earlier(alloc, at, nets.sites, j)?;
    let from = first_bit(at.program, answer);
    let width = width(at.program, answer);
    let word = operand_at(nets.words, j);
    let slot = operand_at(slots, j);
    site_reads(
        alloc, wires, part, map, &site, &earlier, slot, word, from, width,
    )
}

// Puts into the tables what a site reads, if it is read in the row.
fn read_site<P: Copy>(
    alloc: Global,
    wires: &mut Vec<BlockWire<Name<P>>>,
    part: P,
    at: &ProgramRow<'_>,
    nets: &StageNets<'_, Name<P>>,
    slots: &[Operand<Name<P>>],
    j: u32,
    table: &mut Vec<Option<Operand<Name<P>>>>,
    pointers: &mut Vec<Option<Operand<Name<P>>>>,
) -> Result<(), AllocError>
    requires staged { IsStaged (program_of at.now.program.now) (slice_index at.now.rows.now) (decls_of nets.now.maps.now) nets.now.bits }
    requires nets { AreNets (program_of at.now.program.now) nets.now }
    requires tables { HaveTables (decls_of nets.now.maps.now) }
    requires slots { AreSlots (program_of at.now.program.now) nets.now slots.now }
    requires keep { ReadsKeep }
    requires site { j < length at.now.program.now.sites.items }
    requires table { IsTable (program_of at.now.program.now).cells table.old.items }
    requires pointers { IsPointers (program_of at.now.program.now).cells nets.now.bits pointers.old.items }
    ensures { IfOk result (λ done. AreRead part (program_of at.now.program.now) (slice_index at.now.rows.now) at.now.row nets.now slots.now j (j + 1) (wires_of wires.old.items) (wires_of wires.new.items) table.old.items table.new.items pointers.old.items pointers.new.items) }
{
    let found = found_cell(at.program, j as usize);
    let answer = answer_cell(at.program, j as usize);
    if is_read(at, found, answer) {
        let read = reads_of(alloc, wires, part, at, nets, slots, j, answer)?;
        put(table, found, read.there);
        put(table, answer, read.answer);
        put(pointers, found, read.found);
    }
    Ok(())
}

// The reads of a row, by the slots under the keys that they look for.
fn read_sites<P: Copy>(
    alloc: Global,
    wires: &mut Vec<BlockWire<Name<P>>>,
    part: P,
    at: &ProgramRow<'_>,
    nets: &StageNets<'_, Name<P>>,
    slots: &[Operand<Name<P>>],
    table: &mut Vec<Option<Operand<Name<P>>>>,
    pointers: &mut Vec<Option<Operand<Name<P>>>>,
) -> Result<(), AllocError>
    requires staged { IsStaged (program_of at.now.program.now) (slice_index at.now.rows.now) (decls_of nets.now.maps.now) nets.now.bits }
    requires nets { AreNets (program_of at.now.program.now) nets.now }
    requires tables { HaveTables (decls_of nets.now.maps.now) }
    requires slots { AreSlots (program_of at.now.program.now) nets.now slots.now }
    requires table { IsTable (program_of at.now.program.now).cells table.old.items }
    requires pointers { IsPointers (program_of at.now.program.now).cells nets.now.bits pointers.old.items }
    ensures { IfOk result (λ done. AreRead part (program_of at.now.program.now) (slice_index at.now.rows.now) at.now.row nets.now slots.now 0 (length (program_of at.now.program.now).sites) (wires_of wires.old.items) (wires_of wires.new.items) table.old.items table.new.items pointers.old.items pointers.new.items) }
{
    reads_keep();
    for j in 0..at.program.sites.len() as u32 {
        read_site(alloc, wires, part, at, nets, slots, j, table, pointers)?;
    }
    Ok(())
}

/// Makes the wires of all sites that are read in a row, each once, and says in the tables what stands for the cells of the reads and for the pointers that
/// they find. Sites that look for one key in one map share the search for it.
pub fn reads<P: Copy>(
    alloc: Global,
    wires: &mut Vec<BlockWire<Name<P>>>,
    part: P,
    at: &ProgramRow<'_>,
    nets: &StageNets<'_, Name<P>>,
    table: &mut Vec<Option<Operand<Name<P>>>>,
    pointers: &mut Vec<Option<Operand<Name<P>>>>,
) -> Result<(), AllocError>
    requires staged { IsStaged (program_of at.now.program.now) (slice_index at.now.rows.now) (decls_of nets.now.maps.now) nets.now.bits }
    requires nets { AreNets (program_of at.now.program.now) nets.now }
    requires table { IsTable (program_of at.now.program.now).cells table.old.items }
    requires pointers { IsPointers (program_of at.now.program.now).cells nets.now.bits pointers.old.items }
    ensures { IfOk result (λ done. AreRead part (program_of at.now.program.now) (slice_index at.now.rows.now) at.now.row nets.now [] 0 (length (program_of at.now.program.now).sites) (wires_of wires.old.items) (wires_of wires.new.items) table.old.items table.new.items pointers.old.items pointers.new.items) }
{
    loads_tables();
    keeps_over();
    let slots = searches(alloc, wires, part, at, nets)?;
    read_sites(alloc, wires, part, at, nets, &slots, table, pointers)
}
