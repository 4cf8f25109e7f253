//! What holds of every design. The function's contract is a law; it computes nothing.
//!
//! `MeetsMore` of `specs/Laws`, which speaks of all that may be wanted, is no contract: it stands in `proofs/MeetsLaws`.

ghost use Rattle.realization.specs.Laws.{PatternsBringPackets};

/// What goes over whole in a pattern are packets.
pub fn patterns_bring_packets()
    ensures { PatternsBringPackets }
{}
