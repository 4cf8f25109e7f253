//! What holds of every run. Each function's contract is a law; it computes nothing.

ghost use Rattle.xdp_machine.specs.MachineLaws.{IsDeterministic, HasOneAnswer, StepsChangeOnly, RunsKeepSizes, StepsOperate, StepsKeepUnwritten, TakesSameStep, TouchesOne, StepsKeepRanges, StartsInRange, RunsLeaveInRange};

/// A step changes the packet's own things, and the map that its instruction names.
pub fn steps_change_only()
    ensures { StepsChangeOnly }
{}

/// However many steps a run is given, it comes to one end, or is stuck at one place.
pub fn is_deterministic()
    ensures { IsDeterministic }
{}

/// A packet has one answer.
pub fn has_one_answer()
    ensures { HasOneAnswer }
{}

/// A run leaves its frame as long as it was, and the maps over their declarations.
pub fn runs_keep_sizes()
    ensures { RunsKeepSizes }
{}

/// A step leaves the maps as its operation on them does.
pub fn steps_operate()
    ensures { StepsOperate }
{}

/// What a step does not write stays.
pub fn steps_keep_unwritten()
    ensures { StepsKeepUnwritten }
{}

/// Two machines that are alike but for what their maps hold, and whose maps show the same of what the step reads, take the same
/// step.
pub fn takes_same_step()
    ensures { TakesSameStep }
{}

/// What a packet touches is one thing.
pub fn touches_one()
    ensures { TouchesOne }
{}

/// A step keeps what the machine holds in range.
pub fn steps_keep_ranges()
    ensures { StepsKeepRanges }
{}

/// A run begins in range.
pub fn starts_in_range()
    ensures { StartsInRange }
{}

/// What a run leaves is in range.
pub fn runs_leave_in_range()
    ensures { RunsLeaveInRange }
{}
