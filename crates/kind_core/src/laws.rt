//! What holds of kinds. Each function's contract is a law; it computes nothing.

ghost use Rattle.kind_core.specs.FixedOffsets.{StaysFixed};
ghost use Rattle.kind_core.specs.Joins.{JoinIsCommutative, JoinIsIdempotent, JoinIsAssociative};
ghost use Rattle.kind_core.specs.Describes.{StartIsDescribed, JoinDescribes};
ghost use Rattle.kind_core.specs.Soundness.{RegistersAreSound, StoresAreSound, AtomicsAreSound, CallsAreSound, ConditionsAreSound, LaterDescribes, StepsAreSound};

/// A join does not depend on which side comes first.
pub fn join_is_commutative()
    ensures { JoinIsCommutative }
{}

/// A join keeps what both sides bring.
pub fn join_is_idempotent()
    ensures { JoinIsIdempotent }
{}

/// Any number of edges meet in any order.
pub fn join_is_associative()
    ensures { JoinIsAssociative }
{}

/// Where offsets into the packet do not vary, no place in it is not known: at the start, where edges meet, and after each instruction.
pub fn stays_fixed()
    ensures { StaysFixed }
{}

/// The kinds at the start describe the start of every run.
pub fn start_is_described()
    ensures { StartIsDescribed }
{}

/// Where edges meet, a machine that came along either is described.
pub fn join_describes()
    ensures { JoinDescribes }
{}

/// Where arithmetic, a constant or a load is allowed, the machine has a step, and the kinds after it describe what the step leaves.
pub fn registers_are_sound()
    ensures { RegistersAreSound }
{}

/// The same of stores.
pub fn stores_are_sound()
    ensures { StoresAreSound }
{}

/// The same of atomic changes.
pub fn atomics_are_sound()
    ensures { AtomicsAreSound }
{}

/// The same of calls of the helpers that the machine has; a lookup's answer is kept by its node.
pub fn calls_are_sound()
    ensures { CallsAreSound }
{}

/// Where a conditional jump is allowed, its condition has a meaning, and the jump goes along an edge that is present.
pub fn conditions_are_sound()
    ensures { ConditionsAreSound }
{}

/// What describes a machine at a node describes it at each later one.
pub fn later_describes()
    ensures { LaterDescribes }
{}

/// A machine that kinds describe is not stuck at an allowed instruction: it ends there, or goes along an edge that is present, and
/// [`transfer`](crate::transfer) gives kinds that describe what the step leaves.
pub fn steps_are_sound()
    ensures { StepsAreSound }
{}
