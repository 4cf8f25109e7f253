//! The nets of the two parts, and those that they read of others.

ghost use Rattle.std.specs.Prelude.{◌≡◌};
ghost use Rattle.turn_net.specs.HostNet.Names as names;

use block_core::name::Name;

/// The wires of the part that says what the host may do, each of one bit.
#[derive(Clone, Copy, PartialEq, Eq, Debug)]
pub enum Wire {
    /// No frame is inside, and none has begun.
    Idle,
    /// The host is heard: it reads, and may write.
    Ready,
    /// The host writes.
    Writes,
}

/// The nets of other parts by which the host is heard.
#[derive(Clone, Copy, PartialEq, Eq, Debug)]
pub struct HostNets<P> {
    /// Whether some beats of a frame have come, but not its last one; of one bit.
    pub partial: Name<P>,
    /// Whether the commit place holds a packet; of one bit.
    pub present: Name<P>,
    /// How far the packet at the commit place is through its operations.
    pub done: Name<P>,
    /// The part of control, which counts frames.
    pub control: P,
}

/// The name of a wire, where the part says what the host may do.
pub fn wire_name<P: Copy>(part: P, wire: Wire) -> Name<P>
    ensures { result ≡ names.wire_name part wire }
{
    let number = match wire {
        Wire::Idle => 0,
        Wire::Ready => 1,
        Wire::Writes => 2,
    };
    Name::Wire(part, number)
}

/// The name of the wire with the word that the host reads, where the part has it.
pub fn value_name<P: Copy>(part: P) -> Name<P>
    ensures { result ≡ names.value_name part }
{
    Name::Wire(part, 0)
}
