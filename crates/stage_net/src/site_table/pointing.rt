//! Which cells may have a pointer to an entry beside their value.

ghost use Rattle.std.specs.Prelude.{ℕ, ◌≡◌, ◌<◌, ◌≤◌, true, length, IfOk, map as map_list};
ghost use Rattle.hazard_core.specs.cell_core.Formed.{AreFormed, takes};
ghost use Rattle.hazard_core.specs.cell_core.View.{cell_of};
ghost use Rattle.stage_net.specs.SiteTable.Pointing.{AreFlagged, JoinsFlagged, IsFlagged, plain_of};

use crate::site_table::flags::flag;
use hazard_core::cell_core::cell::Cell;
use hazard_core::cell_core::operator::Operator;
use overlay_net::cell_nets::operand::Operand;
use std::alloc::{AllocError, Global};

// Whether one of the inputs of a join that come over its edges is flagged. The edges stand at the even places.
fn joins_flagged(flags: &[bool], ins: &[u32]) -> bool
    ensures yes { JoinsFlagged flags.now ins.now → result ≡ true }
{
    for (n, cell) in ins.iter().enumerate() {
        if n % 2 == 1 && flag(flags, *cell) {
            return true;
        }
    }
    false
}

// Whether a cell may have a pointer, by the flags of the cells that it takes.
fn may_point(flags: &[bool], cell: &Cell) -> bool
    requires { takes cell.now.op ≤ length (cell_of cell.now).ins }
    ensures { IsFlagged flags.now cell.now.op (cell_of cell.now).ins result }
{
    match cell.op {
        Operator::Found(_) => true,
        Operator::Wire => flag(flags, cell.ins[0]),
        Operator::Phi => joins_flagged(flags, &cell.ins),
        _ => false,
    }
}

/// Which cells may have a pointer, by their numbers: those of reads that look for a key, and the copies and joins of such ones.
pub fn pointing(alloc: Global, cells: &[Cell]) -> Result<Vec<bool>, AllocError>
    requires { AreFormed (map_list cell_of cells.now) }
    ensures { IfOk result (λ flags. AreFlagged (map_list cell_of cells.now) flags.items) }
{
    let mut flags = Vec::new(alloc);
    for cell in cells {
        let points = may_point(&flags, cell);
        flags.push(points)?;
    }
    Ok(flags)
}

/// A table of pointers that has the number of no entry for each cell that may have none, and nothing for the others.
pub fn plain_pointers<N: Copy>(
    alloc: Global,
    points: &[bool],
) -> Result<Vec<Option<Operand<N>>>, AllocError>
    ensures { IfOk result (λ table. table.items ≡ map_list plain_of points.now) }
{
    points
        .iter()
        .map(|point| if *point {
            None
        } else {
            Some(Operand::Known(0))
        })
        .collect(alloc)
}
