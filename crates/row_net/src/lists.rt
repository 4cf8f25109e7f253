//! What is made at each place.

ghost use Rattle.std.specs.Prelude.{◌≡◌, ◌<◌, ◌^◌, length, IfOk};
ghost use Rattle.overlay_net.specs.cell_core.View.{program_of};
ghost use Rattle.row_net.specs.Lists.{varies, is_made, made_cells};

use crate::needed::flag;
use crate::table::is_constant;
use cell_nets::cell_core::program::CellProgram;
use cell_nets::operators::is_outside;
use row_plan::RowPlan;
use std::alloc::{AllocError, Global};

// Whether a cell is needed and is not the same for all packets.
fn varies(program: &CellProgram, needed: &[bool], cell: u32) -> bool
    requires { cell < length program.now.cells.items }
    ensures { result ≡ varies (program_of program.now) needed.now cell }
{
    flag(needed, cell) && !is_constant(&program.cells[cell as usize])
}

// Whether the place of a row makes a cell.
fn is_made(program: &CellProgram, plan: &RowPlan, needed: &[bool], row: u32, cell: u32) -> bool
    requires { cell < length program.now.cells.items }
    ensures { result ≡ is_made (program_of program.now) plan.now needed.now row cell }
{
    varies(program, needed, cell)
        && !is_outside(program.cells[cell as usize].op)
        && plan.row_of(cell) == row
}

/// The cells that the place of a row makes.
pub fn made(
    alloc: Global,
    program: &CellProgram,
    plan: &RowPlan,
    needed: &[bool],
    row: u32,
) -> Result<Vec<u32>, AllocError>
    requires { length program.now.cells.items < 2 ^ 32 }
    ensures { IfOk result (λ cells. cells.items ≡ made_cells (program_of program.now) plan.now needed.now row) }
{
    let mut cells = Vec::new(alloc);
    for number in 0..program.cells.len() as u32 {
        if is_made(program, plan, needed, row, number) {
            cells.push(number)?;
        }
    }
    Ok(cells)
}
