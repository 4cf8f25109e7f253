//! What names stand for.

use net_core::tree::Net;

/// What a name stands for.
#[derive(Clone, Copy, PartialEq, Eq, Debug)]
pub enum Entry {
    /// The clock, which no expression reads.
    Clock,
    /// A net of so many bits that can be read: an input, a register or a wire.
    Value { net: Net, width: u8 },
    /// A memory: the bits of its index, and those of its words.
    Words { memory: u32, index: u8, width: u8 },
    /// An output, which is only assigned.
    Output { port: u32, width: u8 },
    /// An integer, by its number among integers.
    Integer(u32),
}
