//! The plan of a program's rows.

ghost use Rattle.std.specs.Prelude.{◌≡◌, ◌⊎◌, ◌<◌, ◌≤◌, ◌^◌, ℕ, suc, length, slice_index, IfOk, IfErr, IsErrOf};
ghost use Rattle.std.proofs.Common.{get_or};
ghost use Rattle.std.specs.declared.vec.Vec.{Vec};
ghost use Rattle.std.specs.declared.alloc.Global.{Global};
ghost use Rattle.xdp_state.specs.declared.refusal.Refusal.{Refusal};
ghost use Rattle.xdp_state.specs.Reasons.{most_stages};
ghost use Rattle.cell_core.specs.Formed.{AreFormed};
ghost use Rattle.cell_core.specs.Rows.{last_row};
ghost use Rattle.cell_core.specs.View.{program_of};
ghost use Rattle.row_plan.specs.Plan.{IsPlan, IsTooLate, live_cells, is_live, AreKept};
ghost use Rattle.row_plan.specs.Steps.{IsRefusedBy, IsLateNode};

use crate::keeping::keep_needed;
use crate::rows::{node_row, read_row, row_in, rows_of, site_row};
use cell_core::program::{CellProgram, Node};
use std::alloc::{AllocError, Global};
use std::marker::Model;
use xdp_state::{BuildError, MOST_STAGES, Refusal, Why};

/// In which row of a pipeline each value of a program is made, and up to which it is kept. Contracts see it as a `Plan`.
#[derive(Debug, Drop)]
pub struct RowPlan {
    rows: Vec<u32>,
    kept: Vec<u32>,
    live: Vec<Vec<u32>>,
    commit: u32,
    last: u32,
}

impl Model for RowPlan {
    ghost use Rattle.std.specs.Prelude.{ℕ, ◌≡◌, ◌≤◌, suc, length, slice_index};
    ghost use Rattle.std.proofs.Common.{get_or};
    ghost use Rattle.std.specs.declared.vec.Vec.{Vec};
    ghost use Rattle.std.specs.declared.alloc.Global.{Global};
    ghost use Rattle.row_plan.specs.Plan.{Plan, live_cells};

    ghost Value = { Plan };

    ghost view = { λ p. record { rows = p.rows.items; kept = p.kept.items; commit = p.commit; last = p.last } };

    ghost invariant = { λ p. (length p.live.items ≡ suc p.last)
        × ((at : ℕ) (d : Vec ℕ Global) → at ≤ p.last → (get_or p.live.items at d).items ≡ live_cells (slice_index p.rows.items) (slice_index p.kept.items) at (length p.rows.items)) };
}

// The last row of the nodes, or the first node whose row is too great.
fn last_row(rows: &[u32], nodes: &[Node]) -> Result<u32, Refusal>
    ensures ok { IfOk result (λ last. (last ≡ last_row (slice_index rows.now) nodes.now) × (last ≤ most_stages)) }
    ensures err { IfErr result (IsLateNode rows.now nodes.now) }
{
    let mut last = 0;
    for node in nodes {
        let row = node_row(rows, node);
        if row > MOST_STAGES {
            return Err(Refusal {
                at: node.place,
                why: Why::Stages,
            });
        }
        last = last.max(row);
    }
    Ok(last)
}

// Whether a value is there in a row.
fn is_live(rows: &[u32], kept: &[u32], at: u32, cell: u32) -> bool
    ensures { result ≡ is_live (slice_index rows.now) (slice_index kept.now) at cell }
{
    row_in(rows, cell) <= at && at <= row_in(kept, cell)
}

// The values that are there in a row.
fn live_at(alloc: Global, rows: &[u32], kept: &[u32], at: u32) -> Result<Vec<u32>, AllocError>
    requires { length rows.now < 2 ^ 32 }
    ensures { IfOk result (λ cells. cells.items ≡ live_cells (slice_index rows.now) (slice_index kept.now) at (length rows.now)) }
{
    let mut cells = Vec::new(alloc);
    for number in 0..rows.len() as u32 {
        if is_live(rows, kept, at, number) {
            cells.push(number)?;
        }
    }
    Ok(cells)
}

// The same of each row up to the last.
fn live_rows(
    alloc: Global,
    rows: &[u32],
    kept: &[u32],
    last: u32,
) -> Result<Vec<Vec<u32>>, AllocError>
    requires few { length rows.now < 2 ^ 32 }
    requires last { last ≤ most_stages }
    ensures count { IfOk result (λ lists. length lists.items ≡ suc last) }
    ensures lists { IfOk result (λ lists. (at : ℕ) (d : Vec ℕ Global) → at ≤ last → (get_or lists.items at d).items ≡ live_cells (slice_index rows.now) (slice_index kept.now) at (length rows.now)) }
{
    let mut lists = Vec::new(alloc);
    for at in 0..last + 1 {
        lists.push(live_at(alloc, rows, kept, at)?)?;
    }
    Ok(lists)
}

// How far each value is kept.
fn kept_of(
    alloc: Global,
    program: &CellProgram,
    rows: &[u32],
    commit: u32,
    last: u32,
) -> Result<Vec<u32>, AllocError>
    requires few { length program.now.cells.items < 2 ^ 32 }
    requires rows { length rows.now ≡ length program.now.cells.items }
    ensures count { IfOk result (λ kept. length kept.items ≡ length rows.now) }
    ensures kept { IfOk result (λ kept. AreKept (program_of program.now) (slice_index rows.now) (slice_index kept.items) commit last) }
{
    let mut kept = Vec::from_slice(alloc, rows)?;
    keep_needed(&mut kept, program, rows, commit, last);
    Ok(kept)
}

/// The plan of a program. Without want of memory a refusal comes exactly where the row of a node exceeds 256: `Stages` at the place of the
/// first such node.
pub fn plan(alloc: Global, program: &CellProgram) -> Result<RowPlan, BuildError>
    requires formed { AreFormed (program_of program.now).cells }
    requires few { length program.now.cells.items < 2 ^ 32 }
    ensures plan { IfOk result (λ plan. IsPlan (program_of program.now) plan) }
    ensures refused { IfErr result (IsRefusedBy (program_of program.now)) }
    ensures exactly { (r : Refusal) → IsTooLate (program_of program.now) r → IsErrOf result (BuildError.Refused r) ⊎ IsErrOf result BuildError.NoMemory }
{
    let Ok(rows) = rows_of(alloc, &program.cells) else {
        return Err(BuildError::NoMemory);
    };
    let last = match last_row(&rows, &program.nodes) {
        Ok(last) => last,
        Err(refusal) => return Err(BuildError::Refused(refusal)),
    };
    let commit = read_row(&rows, &program.cells).max(site_row(&rows, &program.sites));
    let Ok(kept) = kept_of(alloc, program, &rows, commit, last) else {
        return Err(BuildError::NoMemory);
    };
    match live_rows(alloc, &rows, &kept, last) {
        Ok(live) => Ok(RowPlan {
            rows,
            kept,
            live,
            commit,
            last,
        }),
        Err(_) => Err(BuildError::NoMemory),
    }
}

impl RowPlan {
    /// The last row: a pipeline has one place more.
    pub fn rows(&self) -> u32
        ensures { result ≡ self.now.last }
    {
        self.last
    }

    /// The row where packets commit.
    pub fn commit_row(&self) -> u32
        ensures { result ≡ self.now.commit }
    {
        self.commit
    }

    /// The row in which a value is made, by the number of its cell; 0 past the last.
    pub fn row_of(&self, cell: u32) -> u32
        ensures { result ≡ slice_index self.now.rows cell }
    {
        row_in(&self.rows, cell)
    }

    /// The last row in which a value is needed; 0 past the last cell.
    pub fn last_use(&self, cell: u32) -> u32
        ensures { result ≡ slice_index self.now.kept cell }
    {
        row_in(&self.kept, cell)
    }

    /// The numbers of the cells whose values are there in a row up to the last, in their order.
    pub fn live(&self, row: u32) -> &[u32]
        requires { row ≤ self.now.last }
        ensures { result.now ≡ live_cells (slice_index self.now.rows) (slice_index self.now.kept) row (length self.now.rows) }
    {
        &self.live[row as usize]
    }
}
