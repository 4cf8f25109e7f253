//! The order of bytes in a capture's numbers.

ghost use Rattle.std.specs.Prelude.{◌≡◌, ◌≤◌, length};
ghost use Rattle.pcap_core.specs.Number.{number};

use byteorder::{BigEndian, ByteOrder, LittleEndian};

/// Which byte of a number comes first.
#[derive(Clone, Copy, Debug, PartialEq, Eq)]
pub enum Order {
    /// The lowest.
    Little,
    /// The highest.
    Big,
}

impl Order {
    /// The number in the first two bytes.
    #[tactic(auto, unfolding(crate::specs::Number::number))]
    pub(crate) fn u16_at(self, bytes: &[u8]) -> u16
        requires { 2 ≤ length bytes.now }
        ensures { result ≡ number self 2 bytes.now }
    {
        match self {
            Order::Little => LittleEndian::read_u16(bytes),
            Order::Big => BigEndian::read_u16(bytes),
        }
    }

    /// The number in the first four bytes.
    #[tactic(auto, unfolding(crate::specs::Number::number))]
    pub(crate) fn u32_at(self, bytes: &[u8]) -> u32
        requires { 4 ≤ length bytes.now }
        ensures { result ≡ number self 4 bytes.now }
    {
        match self {
            Order::Little => LittleEndian::read_u32(bytes),
            Order::Big => BigEndian::read_u32(bytes),
        }
    }
}
