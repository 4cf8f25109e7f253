//! Which edges a node brings. Each function's contract is a law; it computes nothing.

ghost use Rattle.predicate_core.specs.StepCells.Leaving.{NodesBring};

/// The edges that are added at a node are those that leave it in its graph.
pub fn nodes_bring()
    ensures { NodesBring }
{}
