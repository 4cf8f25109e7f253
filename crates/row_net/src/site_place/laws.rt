//! What holds of pointers. The function's contract is a law; it computes nothing.

ghost use Rattle.row_net.specs.SitePlace.Holding.{PointersAreHeld};

/// From the numbers and the pointers of the cells that a packet holds, a place makes the pointers that the packet takes in.
pub fn pointers_are_held()
    ensures { PointersAreHeld }
{}
