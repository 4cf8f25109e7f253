//! Which cells a design needs.

ghost use Rattle.std.specs.Prelude.{ℕ, ◌≡◌, ◌<◌, ◌^◌, true, false, Contains, length, IfOk, map as map_list};
ghost use Rattle.overlay_net.specs.cell_core.Cells.{cell_at, is_read};
ghost use Rattle.overlay_net.specs.cell_core.Formed.{AreFormed};
ghost use Rattle.overlay_net.specs.cell_core.Rows.{taken_by};
ghost use Rattle.overlay_net.specs.cell_core.View.{cell_of, site_of, program_of};
ghost use Rattle.row_plan.specs.Plan.{answer_cells};
ghost use Rattle.row_net.specs.Needed.{flag, Marks, OfSites, Closes, AreNeeded};

use cell_nets::cell_core::cell::Cell;
use cell_nets::cell_core::program::{CellProgram, FrameByte};
use cell_nets::cell_core::site::Site;
use std::alloc::{AllocError, Global};

/// Whether a cell is marked.
pub(crate) fn flag(flags: &[bool], cell: u32) -> bool
    ensures { result ≡ flag flags.now cell }
{
    let at = cell as usize;
    if at < flags.len() { flags[at] } else { false }
}

// Marks a cell.
fn mark(flags: &mut [bool], cell: u32)
    ensures { Marks (λ k. k ≡ cell) flags.old flags.new }
{
    let at = cell as usize;
    if at < flags.len() {
        flags[at] = true;
    }
}

// Marks cells.
fn mark_all(flags: &mut [bool], cells: &[u32])
    ensures { Marks (Contains cells.now) flags.old flags.new }
{
    for cell in cells {
        mark(flags, *cell);
    }
}

// Marks what a site takes.
fn mark_site(flags: &mut [bool], site: &Site)
    ensures { Marks (Contains (taken_by (site_of site.now))) flags.old flags.new }
{
    mark(flags, site.guard);
    mark_all(flags, &site.key);
    mark_all(flags, &site.operands);
}

// Marks what sites take.
fn mark_sites(flags: &mut [bool], sites: &[Site])
    ensures { Marks (OfSites (map_list site_of sites.now)) flags.old flags.new }
{
    for site in sites {
        mark_site(flags, site);
    }
}

// Marks the reads.
fn mark_reads(flags: &mut [bool], cells: &[Cell])
    requires { length cells.now < 2 ^ 32 }
    ensures { Marks (λ k. is_read (cell_at (map_list cell_of cells.now) k).op ≡ true) flags.old flags.new }
{
    for number in 0..cells.len() {
        if cells[number].op.is_read() {
            mark(flags, number as u32);
        }
    }
}

// Marks the bytes of the answer's frame.
fn mark_bytes(flags: &mut [bool], frame: &[FrameByte])
    ensures { Marks (Contains (map_list (λ b. b.cell) frame.now)) flags.old flags.new }
{
    for byte in frame {
        mark(flags, byte.cell);
    }
}

// Marks the cells of the answer.
fn mark_answer(flags: &mut [bool], program: &CellProgram)
    ensures { Marks (Contains (answer_cells (program_of program.now))) flags.old flags.new }
{
    mark(flags, program.verdict);
    mark(flags, program.target);
    mark_bytes(flags, &program.frame);
}

// Marks what marked cells take, from the last cell to the first.
fn mark_inputs(flags: &mut [bool], program: &CellProgram)
    requires formed { AreFormed (program_of program.now).cells }
    requires count { length flags.old ≡ length program.now.cells.items }
    ensures { Closes (program_of program.now) flags.old flags.new }
{
    let mut at = program.cells.len();
    while at > 0 {
        at -= 1;
        if flags[at] {
            mark_all(flags, &program.cells[at].ins);
        }
    }
}

// Marks the cells that are needed.
fn mark_needed(flags: &mut [bool], program: &CellProgram)
    requires formed { AreFormed (program_of program.now).cells }
    requires few { length program.now.cells.items < 2 ^ 32 }
    requires count { length flags.old ≡ length program.now.cells.items }
    requires blank { (k : ℕ) → flag flags.old k ≡ false }
    ensures { AreNeeded (program_of program.now) flags.new }
{
    mark_answer(flags, program);
    mark_sites(flags, &program.sites);
    mark_reads(flags, &program.cells);
    mark_inputs(flags, program);
}

/// Which cells are needed, by their numbers: those of the answer, what sites take, reads, and what a needed cell takes.
pub fn needed(alloc: Global, program: &CellProgram) -> Result<Vec<bool>, AllocError>
    requires formed { AreFormed (program_of program.now).cells }
    requires few { length program.now.cells.items < 2 ^ 32 }
    ensures { IfOk result (λ needed. AreNeeded (program_of program.now) needed.items) }
{
    let mut flags = vec![in alloc; false; program.cells.len()]?;
    mark_needed(&mut flags, program);
    Ok(flags)
}
