// Kinds.

ghost use Rattle.std.specs.Prelude.{◌≡◌};
ghost use Rattle.kind_core.specs.Kinds.{start, register, key_bytes, value_bytes, is_hash};

use crate::base::Base;
use crate::number::Number;

/// What is known of the value in a register or in a slot of the stack.
#[derive(Copy, Clone, Debug, PartialEq, Eq)]
pub enum Kind {
    /// Nothing is there, or nothing on some way.
    Unset,
    /// A number.
    Num(Number),
    /// A place in the packet, from its first byte: 0 to 256.
    Packet(u16),
    /// A place in the packet that is not known, by its base and the distance from it: -256 to 256.
    Var(Base, i16),
    /// The end of the packet.
    End,
    /// A place in the stack, from its end: -512 to 0.
    Stack(i16),
    /// The context.
    Ctx,
    /// A map, by its number.
    MapRef(u32),
    /// What the lookup at a node gave, by map and node: an entry of the map, or 0.
    Maybe(u32, u32),
    /// A place in an entry of a map, by map and distance: 0 to the size of the value.
    Entry(u32, u32),
    /// An entry of a hash that may have been changed since.
    Stale,
    /// Values of different kinds on different ways.
    Mixed,
}

/// Whether offsets into the packet may vary.
#[derive(Copy, Clone, Debug, PartialEq, Eq)]
pub enum Offsets {
    /// A pointer into the packet is moved by known numbers alone.
    Fixed,
    /// By others too, whose bounds keep it in the first 256 bytes.
    Varying,
}

/// What is known at a point of a program.
#[derive(Copy, Clone, Debug, PartialEq, Eq)]
pub struct Kinds {
    /// Of R0 to R10.
    pub registers: [Kind; 11],
    /// Of the 64 slots of the stack, of eight bytes each, from the lowest.
    pub slots: [Kind; 64],
    /// How many bytes the packet is known to have, 256 at most.
    pub checked: u16,
    /// Whether sums with numbers that are not known are followed.
    pub offsets: Offsets,
}

impl Kinds {
    /// The kinds at the start of a program.
    pub fn start(offsets: Offsets) -> Kinds
        ensures { result ≡ start offsets }
    {
        let mut registers = [Kind::Unset; 11];
        registers[1] = Kind::Ctx;
        registers[10] = Kind::Stack(0);
        Kinds {
            registers,
            slots: [Kind::Num(Number::Known(0)); 64],
            checked: 0,
            offsets,
        }
    }
}
