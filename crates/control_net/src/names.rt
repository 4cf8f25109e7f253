//! The nets of control, and those that it reads of other parts. Counters, and the registers of counters and places, are those of `ring_net`.

ghost use Rattle.std.specs.Prelude.{◌≡◌, ◌≤◌};
ghost use Rattle.control_net.specs.Names as names;

use crate::ring_net::shape::ControlShape;
use block_core::name::Name;

/// The wires of control, each of one bit.
#[derive(Clone, Copy, PartialEq, Eq, Debug)]
pub enum Wire {
    /// A beat may come.
    Ready,
    /// A beat goes over inwards.
    Over,
    /// The last beat of a frame goes over inwards.
    Ends,
    /// Packets move on: in this clock no operation commits, and the host does not write.
    Advances,
    /// A frame's packet enters place 0.
    Injects,
    /// A packet leaves the last place.
    Exits,
    /// A packet leaves the commit place.
    Passes,
    /// A beat of an answer is shown.
    Shown,
    /// A beat goes over outwards.
    Taken,
    /// The last beat of an answer goes over outwards.
    Gone,
}

/// The nets of other parts that control reads, each of one bit.
#[derive(Clone, Copy, PartialEq, Eq, Debug)]
pub struct ControlNets<P> {
    /// Whether some beats of a frame have come, but not its last one.
    pub partial: Name<P>,
    /// Whether the beat that is shown is the last one of its answer.
    pub last: Name<P>,
    /// Whether an operation commits in this clock, or the host writes: packets stay where they are.
    pub stalls: Name<P>,
}

/// The number of the register that holds the lap of the packet at a place.
pub(crate) fn lap_number(shape: &ControlShape, k: u32) -> u32
    requires { k ≤ shape.now.commit }
    ensures { result ≡ names.lap_number shape.now k }
{
    10 + shape.stages + k
}

/// The number of the register that holds the slot of the packet at a place.
pub(crate) fn slot_number(shape: &ControlShape, k: u32) -> u32
    requires { k ≤ shape.now.commit }
    ensures { result ≡ names.slot_number shape.now k }
{
    11 + shape.stages + shape.commit + k
}

/// The lap of the packet at a place, where the part is control.
pub fn lap_name<P: Copy>(part: P, shape: &ControlShape, k: u32) -> Name<P>
    requires { k ≤ shape.now.commit }
    ensures { result ≡ names.lap_name shape.now part k }
{
    Name::Register(part, lap_number(shape, k))
}

/// The slot of the packet at a place, where the part is control.
pub fn slot_name<P: Copy>(part: P, shape: &ControlShape, k: u32) -> Name<P>
    requires { k ≤ shape.now.commit }
    ensures { result ≡ names.slot_name shape.now part k }
{
    Name::Register(part, slot_number(shape, k))
}

/// The name of a wire, where the part is control.
pub fn wire_name<P: Copy>(part: P, wire: Wire) -> Name<P>
    ensures { result ≡ names.wire_name part wire }
{
    let number = match wire {
        Wire::Ready => 0,
        Wire::Over => 1,
        Wire::Ends => 2,
        Wire::Advances => 3,
        Wire::Injects => 4,
        Wire::Exits => 5,
        Wire::Passes => 6,
        Wire::Shown => 7,
        Wire::Taken => 8,
        Wire::Gone => 9,
    };
    Name::Wire(part, number)
}

/// Whether a place or an older one sends back, where the part is the one that says so.
pub fn back_name<P: Copy>(part: P, shape: &ControlShape, k: u32) -> Name<P>
    requires { k ≤ shape.now.commit }
    ensures { result ≡ names.back_name shape.now part k }
{
    Name::Wire(part, shape.commit - k)
}
