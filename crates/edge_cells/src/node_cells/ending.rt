//! Nodes where the run ends.

ghost use Rattle.std.specs.Prelude.{IfOk};
ghost use Rattle.edge_cells.specs.NodeCells.Stepping.{ExitSteps};

use crate::joining::Here;
use crate::laws::ends_are_left;
use crate::leaving::leave_exit;
use kind_core::Kinds;
use kind_core::laws::steps_are_sound;
use operator_cells::held_cells::way::Exit;
use std::alloc::AllocError;

/// A node with an exit: its end is on where the guard is, with the number in R0 as the verdict.
pub fn step_exit(kinds: &Kinds, here: &Here, exits: &mut Vec<Exit>) -> Result<(), AllocError>
    ensures { IfOk result (λ done. ExitSteps kinds.now here.now exits.old.items exits.new.items) }
{
    ends_are_left();
    steps_are_sound();
    exits.push(leave_exit(here, kinds))?;
    Ok(())
}
