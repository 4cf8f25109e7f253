//! What holds of the sites of a program. The function's contract is a law; it computes nothing.

ghost use Rattle.turn_net.specs.Actions.{RecordsAlone};

/// The operation that the pipe chooses is the first open one among those of record sites: no other writes.
pub fn records_alone()
    ensures { RecordsAlone }
{}
