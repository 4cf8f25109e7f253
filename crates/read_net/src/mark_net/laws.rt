//! What registers may say of marks. Each function's contract is a law; it computes nothing.

ghost use Rattle.read_net.specs.MarkNet.Standing.{EnteringStands, EntersUnmarked, MarkingStands, MarksReadsAlone, ReloadOfReads};

/// A register that says a mark, but where the guard is known as 0, says it also where the packet moves on to the next place, though the machine drops a
/// mark there whose guard becomes known as 0. A packet without a mark enters a place without it.
pub fn entering()
    ensures stands { EnteringStands }
    ensures unmarked { EntersUnmarked }
{}

/// So it does where a change marks the packet, if the packet has read at the site and the register takes a touch in. Where it has not read a change
/// makes no mark.
pub fn marking()
    ensures stands { MarkingStands }
    ensures reads { MarksReadsAlone }
{}

/// Where no mark stands but of sites at which the packet has read, these alone say whether the packet must reload.
pub fn reload_of_reads()
    ensures { ReloadOfReads }
{}
