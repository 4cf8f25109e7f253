//! A packet's earlier operations that a read sees.

ghost use Rattle.std.specs.Prelude.{◌≡◌, ◌&&◌, ◌<◌, ◌≤◌, ◌^◌, ℕ, length, slice_index, nat_lt, [], ◌∷◌, filter, count_by};
ghost use Rattle.std.specs.List.{list_all};
ghost use Rattle.cell_core.specs.Formed.{AllFit};
ghost use Rattle.cell_core.specs.Rows.{taken_by};
ghost use Rattle.cell_core.specs.View.{program_of, site_of};
ghost use Rattle.hazard_core.specs.StageValues.{parts, read_cells, is_pending, pending, writes, adds_key, takes_key};

use crate::operation::writes_as;
use crate::site::{answer_cell, found_cell, is_delete, is_update, site_at};
use crate::stage_values::StageValues;
use crate::tables::Tables;
use cell_core::program::CellProgram;
use cell_core::site::Site;

/// The row of a cell, 0 past the last.
pub fn row_in(rows: &[u32], cell: usize) -> u32
    ensures { result ≡ slice_index rows.now cell }
{
    if cell < rows.len() { rows[cell] } else { 0 }
}

/// Whether cells stand in rows below one.
fn all_below(rows: &[u32], cells: &[u32], r: u32) -> bool
    ensures { result ≡ list_all (λ c. nat_lt (slice_index rows.now c) r) cells.now }
{
    cells.iter().all(|c| row_in(rows, *c as usize) < r)
}

/// Whether a cell stands in a row below one, if there is such a cell.
fn is_below(program: &CellProgram, rows: &[u32], cell: usize, r: u32) -> bool
    ensures { result ≡ list_all (λ c. nat_lt (slice_index rows.now c) r) (filter (λ k. nat_lt k (length (program_of program.now).cells)) (cell ∷ [])) }
{
    cell >= program.cells.len() || row_in(rows, cell) < r
}

/// Whether all that a site takes stands in rows below one.
#[tactic(auto, using(crate::proofs::Parts::taken_split))]
fn takes_below(rows: &[u32], r: u32, site: &Site) -> bool
    ensures { result ≡ list_all (λ c. nat_lt (slice_index rows.now c) r) (taken_by (site_of site.now)) }
{
    row_in(rows, site.guard as usize) < r
        && all_below(rows, &site.key, r)
        && all_below(rows, &site.operands, r)
}

/// Whether all that it gives does.
#[tactic(auto, using(crate::proofs::Parts::all_two))]
fn gives_below(program: &CellProgram, rows: &[u32], r: u32, i: usize) -> bool
    ensures { result ≡ list_all (λ c. nat_lt (slice_index rows.now c) r) (read_cells (program_of program.now).cells i) }
{
    is_below(program, rows, found_cell(program, i), r)
        && is_below(program, rows, answer_cell(program, i), r)
}

/// Whether all that a site takes and gives stands in rows below one.
#[tactic(auto, using(crate::proofs::Parts::all_append))]
fn has_parts(program: &CellProgram, rows: &[u32], r: u32, i: usize) -> bool
    requires { i < length program.now.sites.items }
    ensures { result ≡ list_all (λ c. nat_lt (slice_index rows.now c) r) (parts (program_of program.now) i) }
{
    let takes = takes_below(rows, r, site_at(program, i));
    let gives = gives_below(program, rows, r, i);
    takes && gives
}

/// Whether an operation may write the map of site j, and is there before a row.
pub fn is_pending(program: &CellProgram, rows: &[u32], r: u32, j: usize, i: usize) -> bool
    requires i { i < length program.now.sites.items }
    requires j { j < length program.now.sites.items }
    ensures { result ≡ is_pending (program_of program.now) (slice_index rows.now) r j i }
{
    let site = site_at(program, i);
    site.map == site_at(program, j).map && site.act.records() && has_parts(program, rows, r, i)
}

/// Whether a packet's operation at a site writes.
pub fn writes(program: &CellProgram, tables: &Tables, held: &StageValues, j: usize) -> bool
    requires site { j < length program.now.sites.items }
    requires fits { AllFit tables.now.decls (program_of program.now).sites }
    ensures { result ≡ writes (program_of program.now) tables.now.decls held.now j }
{
    let site = site_at(program, j);
    let kind = tables.decl(site.map).kind;
    held.guard_on(site) && writes_as(site.act, kind, held.value(answer_cell(program, j)))
}

/// Whether it adds a key.
fn adds_key(program: &CellProgram, tables: &Tables, held: &StageValues, j: usize) -> bool
    requires site { j < length program.now.sites.items }
    requires fits { AllFit tables.now.decls (program_of program.now).sites }
    ensures { result ≡ adds_key (program_of program.now) tables.now.decls held.now j }
{
    writes(program, tables, held, j)
        && is_update(site_at(program, j).act)
        && held.pointer(found_cell(program, j)).is_null()
}

/// Whether it takes one away.
fn takes_key(program: &CellProgram, tables: &Tables, held: &StageValues, j: usize) -> bool
    requires site { j < length program.now.sites.items }
    requires fits { AllFit tables.now.decls (program_of program.now).sites }
    ensures { result ≡ takes_key (program_of program.now) tables.now.decls held.now j }
{
    writes(program, tables, held, j) && is_delete(site_at(program, j).act)
}

/// Whether a read of site j in a row sees that the operation of site i adds a key.
fn sees_added(
    program: &CellProgram,
    rows: &[u32],
    r: u32,
    tables: &Tables,
    held: &StageValues,
    j: usize,
    i: usize,
) -> bool
    requires i { i < length program.now.sites.items }
    requires j { j < length program.now.sites.items }
    requires fits { AllFit tables.now.decls (program_of program.now).sites }
    ensures { result ≡ (is_pending (program_of program.now) (slice_index rows.now) r j i && adds_key (program_of program.now) tables.now.decls held.now i) }
{
    is_pending(program, rows, r, j, i) && adds_key(program, tables, held, i)
}

/// Whether it sees that it takes one away.
fn sees_taken(
    program: &CellProgram,
    rows: &[u32],
    r: u32,
    tables: &Tables,
    held: &StageValues,
    j: usize,
    i: usize,
) -> bool
    requires i { i < length program.now.sites.items }
    requires j { j < length program.now.sites.items }
    requires fits { AllFit tables.now.decls (program_of program.now).sites }
    ensures { result ≡ (is_pending (program_of program.now) (slice_index rows.now) r j i && takes_key (program_of program.now) tables.now.decls held.now i) }
{
    is_pending(program, rows, r, j, i) && takes_key(program, tables, held, i)
}

/// How many keys the operations add that a read of site j in a row sees.
#[tactic(auto, using(crate::proofs::PrefixLaws::count_more))]
pub fn keys_added(
    program: &CellProgram,
    rows: &[u32],
    r: u32,
    tables: &Tables,
    held: &StageValues,
    j: usize,
) -> usize
    requires site { j < length program.now.sites.items }
    requires fits { AllFit tables.now.decls (program_of program.now).sites }
    ensures count { result ≡ count_by (adds_key (program_of program.now) tables.now.decls held.now) (pending (program_of program.now) (slice_index rows.now) r j) }
    ensures few { result ≤ j }
{
    let mut count = 0;
    for i in 0..j {
        if sees_added(program, rows, r, tables, held, j, i) {
            count += 1;
        }
    }
    count
}

/// How many they take away.
#[tactic(auto, using(crate::proofs::PrefixLaws::count_more))]
pub fn keys_taken(
    program: &CellProgram,
    rows: &[u32],
    r: u32,
    tables: &Tables,
    held: &StageValues,
    j: usize,
) -> usize
    requires site { j < length program.now.sites.items }
    requires fits { AllFit tables.now.decls (program_of program.now).sites }
    ensures count { result ≡ count_by (takes_key (program_of program.now) tables.now.decls held.now) (pending (program_of program.now) (slice_index rows.now) r j) }
    ensures few { result ≤ j }
{
    let mut count = 0;
    for i in 0..j {
        if sees_taken(program, rows, r, tables, held, j, i) {
            count += 1;
        }
    }
    count
}
