//! What holds of the host. Each function's contract is a law; it computes nothing.

ghost use Rattle.turn_net.specs.HostNet.Laws.{HostFollows, ValueFollows, WritesItsNumber};

/// In a clock of a pipeline the part says what the machine says: whether no frame is inside or has begun, whether the host is heard, and that it writes where
/// the map that it names lets it. What it writes is what its access says.
pub fn writes<P>()
    ensures follows { HostFollows P }
    ensures number { WritesItsNumber }
{}

/// The word that the host reads is the one that the machine shows.
pub fn reads<P>()
    ensures { ValueFollows P }
{}
