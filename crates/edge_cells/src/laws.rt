//! What holds where edges meet and where they leave. Each function's contract is a law; it computes nothing.

ghost use Rattle.edge_cells.specs.Widening.{JoinsWiden, JoinsAreFilled};
ghost use Rattle.edge_cells.specs.Joining.{HereIsRight};
ghost use Rattle.edge_cells.specs.Leaving.{UndecidedAreOpen, JumpsAreTested, EdgesAreInside, EdgesAreKnown, SingleEdgesAreKnown, OperandsAreReady, EndsAreLeft};

/// What is known where edges meet says no more than what is known on each.
pub fn joins_widen()
    ensures { JoinsWiden }
{}

/// Where no slot is unset on any edge none is where they meet.
pub fn joins_are_filled()
    ensures { JoinsAreFilled }
{}

/// What [`join`](crate::joining::join) makes of the edges that lead to a node is right there.
pub fn here_is_right()
    ensures { HereIsRight }
{}

/// A jump that is allowed and undecided has a condition that needs a cell.
pub fn undecided_are_open()
    ensures { UndecidedAreOpen }
{}

/// Where a machine is known at a node the bit of a jump's condition is 1 exactly where the machine takes the jump.
pub fn jumps_are_tested()
    ensures { JumpsAreTested }
{}

/// What is held at a jump is there along its edges.
pub fn edges_are_inside()
    ensures { EdgesAreInside }
{}

/// What is known at an allowed jump and held there is known and held along the edge that the machine takes.
pub fn edges_are_known()
    ensures { EdgesAreKnown }
{
    kind_core::laws::conditions_are_sound();
    kind_core::laws::later_describes();
}

/// The same along the edge of a jump without a condition.
pub fn single_edges_are_known()
    ensures { SingleEdgesAreKnown }
{
    kind_core::laws::later_describes();
}

/// What the operands of a jump take is there.
pub fn operands_are_ready()
    ensures { OperandsAreReady }
{}

/// The cells of an end hold what the packet leaves there.
pub fn ends_are_left()
    ensures { EndsAreLeft }
{}
