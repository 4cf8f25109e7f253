//! A program with its plan.

ghost use Rattle.std.specs.Prelude.{◌≡◌, ◌<◌, ◌^◌, length, IfOk};
ghost use Rattle.hazard_core.specs.cell_core.View.{program_of};
ghost use Rattle.pipe_core.specs.Planned.{planned_view};

use hazard_core::cell_core::program::CellProgram;
use row_plan::RowPlan;
use std::alloc::{AllocError, Global};

/// A program, the rows of its cells, the place where packets commit, the last place, and how many frames there is room for.
#[derive(Drop)]
pub struct Planned<'a> {
    pub program: &'a CellProgram,
    pub rows: Vec<u32>,
    pub commit: u32,
    pub last: u32,
    pub slots: u32,
}

/// The rows of a plan, by cell.
fn rows_of(alloc: Global, program: &CellProgram, plan: &RowPlan) -> Result<Vec<u32>, AllocError>
    requires few { length program.now.cells.items < 2 ^ 32 }
    requires count { length plan.now.rows ≡ length program.now.cells.items }
    ensures { IfOk result (λ rows. rows.items ≡ plan.now.rows) }
{
    let mut rows = Vec::new(alloc);
    for cell in 0..program.cells.len() {
        rows.push(plan.row_of(cell as u32))?;
    }
    Ok(rows)
}

impl<'a> Planned<'a> {
    pub fn new(
        alloc: Global,
        program: &'a CellProgram,
        plan: &RowPlan,
        slots: u32,
    ) -> Result<Planned<'a>, AllocError>
        requires few { length program.now.cells.items < 2 ^ 32 }
        requires count { length plan.now.rows ≡ length program.now.cells.items }
        ensures { IfOk result (λ planned. planned_view planned ≡ record {
          program = program_of program.now;
          rows = plan.now.rows;
          commit = plan.now.commit;
          last = plan.now.last;
          slots = slots;
        }) }
    {
        Ok(Planned {
            program,
            rows: rows_of(alloc, program, plan)?,
            commit: plan.commit_row(),
            last: plan.rows(),
            slots,
        })
    }
}
