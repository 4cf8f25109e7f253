//! What holds of all designs that show the same. Each function's contract is a law; it computes nothing.

ghost use Rattle.net_core.specs.SameClocks.Laws.{DesignsShowTheirOwn, SameInTurn, SameNeverStops};

/// A design shows what it shows.
pub fn designs_show_their_own()
    ensures { DesignsShowTheirOwn }
{}

/// What shows the same as a design that shows the same as a third one shows the same as that one.
pub fn same_in_turn()
    ensures { SameInTurn }
{}

/// Where no divisor of the first design is zero, none of the second one is.
pub fn same_never_stops()
    ensures { SameNeverStops }
{}
