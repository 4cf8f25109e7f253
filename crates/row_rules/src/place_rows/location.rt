// Data locations and their numbers.

/// The number of the first slot.
pub(crate) const FIRST_SLOT: usize = 11;

/// The number of the packet's first byte.
pub(crate) const FIRST_BYTE: usize = 75;

/// The number of the target.
const TARGET: usize = 331;

/// The number of what is pending of map 0.
const FIRST_PENDING: usize = 332;

/// How many data locations there are.
pub const LOCATIONS: usize = 348;

/// Where a value of a program stands at a node.
#[derive(Copy, Clone, Debug, PartialEq, Eq)]
pub enum Location {
    /// R0 to R10.
    Register(u8),
    /// A slot of the stack, 0 to 63, from its lowest bytes on.
    StackSlot(u8),
    /// One of the packet's first 256 bytes.
    PacketByte(u8),
    /// The target of a redirect.
    Target,
    /// The writes that are pending of a map, 0 to 15.
    PendingWrites(u32),
}

impl Location {
    ghost use Rattle.std.specs.Prelude.{◌≡◌, ◌<◌, ◌^◌};
    ghost use Rattle.row_rules.specs.PlaceRows.Locations.{location_number, location_at, location_count, IsLocation};

    /// Its number, 0 to 347 of those that there are.
    pub fn number(self) -> usize
        ensures value { result ≡ location_number self }
        ensures small { result < 2 ^ 33 }
    {
        match self {
            Location::Register(r) => r as usize,
            Location::StackSlot(s) => FIRST_SLOT + s as usize,
            Location::PacketByte(i) => FIRST_BYTE + i as usize,
            Location::Target => TARGET,
            Location::PendingWrites(map) => FIRST_PENDING + map as usize,
        }
    }

    /// The location of a number.
    pub fn of(number: usize) -> Location
        requires { number < location_count }
        ensures value { result ≡ location_at number }
        ensures there { IsLocation result }
    {
        if number < FIRST_SLOT {
            Location::Register(number as u8)
        } else if number < FIRST_BYTE {
            Location::StackSlot((number - FIRST_SLOT) as u8)
        } else if number < TARGET {
            Location::PacketByte((number - FIRST_BYTE) as u8)
        } else if number < FIRST_PENDING {
            Location::Target
        } else {
            Location::PendingWrites((number - FIRST_PENDING) as u32)
        }
    }
}
