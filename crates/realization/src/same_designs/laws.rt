//! What holds of every two designs that show the same. Each function's contract is a law; it computes nothing.
//!
//! `SameDesignsMeet` of `specs/Laws`, which speaks of all that may be wanted, is no contract: it stands in `proofs/MeetLaws`.

ghost use Rattle.realization.specs.SameDesigns.Laws.{SameDesignsGoOn, SameDesignsShowMaps};

/// After the same clocks both go through the same clocks.
pub fn same_designs_go_on()
    ensures { SameDesignsGoOn }
{}

/// After the same clocks both show the host the same maps.
pub fn same_designs_show_maps()
    ensures { SameDesignsShowMaps }
{}
