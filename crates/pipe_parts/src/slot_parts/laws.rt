//! What holds of the parts that show slots. The function's contract is a law; it computes nothing.

ghost use Rattle.pipe_parts.specs.SlotParts.Laws.{SlotsAreShown};

/// In a pipeline by the pipeline plan that has these blocks for its parts, what stands for each map stands for it where packets are looked at.
pub fn slots_are_shown()
    ensures { SlotsAreShown }
{}
