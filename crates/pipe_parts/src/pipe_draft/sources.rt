//! The cells that come with a packet.

ghost use Rattle.std.specs.Prelude.{◌≡◌, ◌<◌, ◌^◌, IfOk, length};
ghost use Rattle.hazard_core.specs.cell_core.View.{program_of};
ghost use Rattle.pipe_parts.specs.PipeDraft.Sources.{comes, is_source, source_list};

use hazard_core::cell_core::operator::Operator;
use hazard_core::cell_core::program::CellProgram;
use overlay_net::cell_nets::operators::is_outside;
use row_net::table::is_constant;
use std::alloc::{AllocError, Global};

// Whether the number of an operator comes with a packet.
fn comes(op: Operator) -> bool
    ensures { result ≡ comes op }
{
    is_outside(op) && !op.is_read()
}

// Whether a cell is needed, varies and comes with a packet.
fn is_source(program: &CellProgram, needed: &[bool], cell: u32) -> bool
    requires count { length needed.now ≡ length program.now.cells.items }
    requires within { cell < length program.now.cells.items }
    ensures { result ≡ is_source (program_of program.now) needed.now cell }
{
    let at = &program.cells[cell as usize];
    needed[cell as usize] && !is_constant(at) && comes(at.op)
}

/// The needed cells that come with a packet.
pub(crate) fn source_list(
    alloc: Global,
    program: &CellProgram,
    needed: &[bool],
) -> Result<Vec<u32>, AllocError>
    requires few { length program.now.cells.items < 2 ^ 32 }
    requires count { length needed.now ≡ length program.now.cells.items }
    ensures { IfOk result (λ cells. cells.items ≡ source_list (program_of program.now) needed.now) }
{
    let mut cells = Vec::new(alloc);
    for number in 0..program.cells.len() as u32 {
        if is_source(program, needed, number) {
            cells.push(number)?;
        }
    }
    Ok(cells)
}
