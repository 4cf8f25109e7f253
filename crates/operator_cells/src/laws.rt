//! What holds where edges meet. Each function's contract is a law; it computes nothing.

ghost use Rattle.operator_cells.specs.Joining.{ChoiceIsRight};

/// Where an edge is on the path, and all that are bring one number, it is chosen.
pub fn choice_is_right()
    ensures { ChoiceIsRight }
{}
