//! Where cells stand that are the same for all packets.

ghost use Rattle.std.specs.Prelude.{◌≡◌, ◌<◌, ◌≤◌, ◌^◌, true, slice_index, length};
ghost use Rattle.hazard_core.specs.cell_core.Cells.{cell_at};
ghost use Rattle.hazard_core.specs.cell_core.Formed.{AreFormed};
ghost use Rattle.hazard_core.specs.cell_core.View.{cell_of, program_of};
ghost use Rattle.stage_net.specs.SiteTable.Constants.{constant_number, is_early, AreEarly};

use hazard_core::cell_core::cell::Cell;
use hazard_core::cell_core::operator::Operator;
use hazard_core::cell_core::program::CellProgram;
use hazard_core::cell_core::value::bits_from;
use row_plan::RowPlan;

// The number of a cell that is one, 0 for others.
fn constant_number(cell: &Cell) -> u64
    requires width { cell.now.width ≤ 64 }
    requires from { cell.now.from ≤ 63 }
    ensures { result ≡ constant_number (cell_of cell.now) }
{
    match cell.op {
        Operator::Constant(n) => bits_from(n, cell.from, cell.width),
        _ => 0,
    }
}

// Whether a cell stands in the first row, or is no number but 0.
fn is_early(program: &CellProgram, plan: &RowPlan, cell: u32) -> bool
    requires formed { AreFormed (program_of program.now).cells }
    requires within { cell < length program.now.cells.items }
    ensures { result ≡ is_early (program_of program.now) plan.now cell }
{
    plan.row_of(cell) == 0 || constant_number(&program.cells[cell as usize]) == 0
}

/// Whether each number of a program stands in the first row, or is 0.
pub fn are_early(program: &CellProgram, plan: &RowPlan) -> bool
    requires formed { AreFormed (program_of program.now).cells }
    requires few { length program.now.cells.items < 2 ^ 32 }
    ensures yes { result ≡ true → AreEarly (program_of program.now) (slice_index plan.now.rows) }
    ensures no { AreEarly (program_of program.now) (slice_index plan.now.rows) → result ≡ true }
{
    for number in 0..program.cells.len() as u32 {
        if !is_early(program, plan, number) {
            return false;
        }
    }
    true
}
