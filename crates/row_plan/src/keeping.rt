// How far values are kept.

ghost use Rattle.std.specs.Prelude.{◌≡◌, ◌<◌, ◌^◌, ℕ, Some, true, length, slice_index, map as map_list};
ghost use Rattle.cell_core.specs.Cells.{site_in};
ghost use Rattle.cell_core.specs.Sites.{site_at, records};
ghost use Rattle.cell_core.specs.Rows.{taken_by};
ghost use Rattle.cell_core.specs.View.{cell_of, site_of, program_of};
ghost use Rattle.row_plan.specs.Plan.{answer_cells, AreKept};
ghost use Rattle.row_plan.specs.Steps.{Keeps, OfOne, OfAll, OfInputs, OfWrites, OfSites};

use crate::rows::row_in;
use cell_core::cell::Cell;
use cell_core::operator::Operator;
use cell_core::program::{CellProgram, FrameByte};
use cell_core::site::Site;

// Keeps a value up to a row.
fn keep(kept: &mut [u32], cell: u32, row: u32)
    ensures { Keeps (OfOne cell row) kept.old kept.new }
{
    let at = cell as usize;
    if at < kept.len() && kept[at] < row {
        kept[at] = row;
    }
}

// Keeps values up to a row.
fn keep_all(kept: &mut [u32], cells: &[u32], row: u32)
    ensures { Keeps (OfAll cells.now row) kept.old kept.new }
{
    for cell in cells {
        keep(kept, *cell, row);
    }
}

// Keeps each value up to the rows of the cells that take it.
fn keep_inputs(kept: &mut [u32], cells: &[Cell], rows: &[u32])
    requires { length cells.now < 2 ^ 32 }
    ensures { Keeps (OfInputs (map_list cell_of cells.now) rows.now (length cells.now)) kept.old kept.new }
{
    for number in 0..cells.len() {
        let row = row_in(rows, number as u32);
        keep_all(kept, &cells[number].ins, row);
    }
}

// Whether an operator reads a site whose operation may write.
fn reads_record(op: Operator, sites: &[Site]) -> bool
    ensures yes { result ≡ true → (j : ℕ) × (site_in op ≡ Some j) × (records (site_at (map_list site_of sites.now) j).act ≡ true) }
    ensures no { (j : ℕ) → site_in op ≡ Some j → records (site_at (map_list site_of sites.now) j).act ≡ true → result ≡ true }
{
    match op.site() {
        Some(site) => {
            let at = site as usize;
            at < sites.len() && sites[at].act.records()
        }
        None => false,
    }
}

// Keeps what operations that may write answer up to the row where packets commit.
fn keep_writes(kept: &mut [u32], cells: &[Cell], sites: &[Site], commit: u32)
    requires { length cells.now < 2 ^ 32 }
    ensures { Keeps (OfWrites (map_list cell_of cells.now) (map_list site_of sites.now) commit (length cells.now)) kept.old kept.new }
{
    for number in 0..cells.len() {
        if reads_record(cells[number].op, sites) {
            keep(kept, number as u32, commit);
        }
    }
}

// Keeps what a site takes.
fn keep_site(kept: &mut [u32], site: &Site, commit: u32)
    ensures { Keeps (OfAll (taken_by (site_of site.now)) commit) kept.old kept.new }
{
    keep(kept, site.guard, commit);
    keep_all(kept, &site.key, commit);
    keep_all(kept, &site.operands, commit);
}

// Keeps what sites take up to the row where packets commit.
fn keep_sites(kept: &mut [u32], sites: &[Site], commit: u32)
    ensures { Keeps (OfSites (map_list site_of sites.now) commit) kept.old kept.new }
{
    for site in sites {
        keep_site(kept, site, commit);
    }
}

// Keeps the bytes of the answer's frame.
fn keep_bytes(kept: &mut [u32], frame: &[FrameByte], last: u32)
    ensures { Keeps (OfAll (map_list (λ b. b.cell) frame.now) last) kept.old kept.new }
{
    for byte in frame {
        keep(kept, byte.cell, last);
    }
}

// Keeps the answer up to the last row.
fn keep_answer(kept: &mut [u32], program: &CellProgram, last: u32)
    ensures { Keeps (OfAll (answer_cells (program_of program.now)) last) kept.old kept.new }
{
    keep(kept, program.verdict, last);
    keep(kept, program.target, last);
    keep_bytes(kept, &program.frame, last);
}

/// Keeps all values as far as they are needed; before, each is kept in its own row.
pub(crate) fn keep_needed(
    kept: &mut [u32],
    program: &CellProgram,
    rows: &[u32],
    commit: u32,
    last: u32,
)
    requires few { length program.now.cells.items < 2 ^ 32 }
    requires own { kept.old ≡ rows.now }
    requires count { length rows.now ≡ length program.now.cells.items }
    ensures count { length kept.new ≡ length rows.now }
    ensures kept { AreKept (program_of program.now) (slice_index rows.now) (slice_index kept.new) commit last }
{
    keep_inputs(kept, &program.cells, rows);
    keep_writes(kept, &program.cells, &program.sites, commit);
    keep_sites(kept, &program.sites, commit);
    keep_answer(kept, program, last);
}
