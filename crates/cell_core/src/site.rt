//! The operations of a program on its maps.

ghost use Rattle.std.specs.Prelude.{◌≡◌};

use crate::cell::Cells;
use xdp_state::bpf_isa::Size;
use xdp_state::xdp_maps::change::ChangeKind;

/// What a site does to its map (bpf-helpers(7); RFC 9669, section 5).
#[derive(Copy, Clone, Debug, PartialEq, Eq)]
pub enum Act {
    Lookup,
    /// A load from an entry, so many bytes from a place in the value on.
    Load(u32, Size),
    /// An update. Its operands are the flags, and the words of the value.
    Update,
    Delete,
    /// A store into an entry, so many bytes from a place in the value on. Its operand is the number.
    Store(u32, Size),
    /// An atomic change in an entry, from a place in the value on. Its operands are the source, and what is compared.
    Atomic(u32, Atomic),
}

/// An atomic change of four bytes, or of eight where it is wide, and whether it answers the old number.
#[derive(Copy, Clone, Debug, PartialEq, Eq)]
pub struct Atomic {
    pub kind: ChangeKind,
    pub wide: bool,
    pub fetch: bool,
}

/// An operation of a node on a map, that a packet does where the guard is 1. Keys and values are words of eight bytes,
/// the low byte first; the last word is filled up.
#[derive(Drop)]
pub struct Site {
    pub node: u32,
    pub map: u32,
    pub guard: u32,
    pub act: Act,
    pub key: Cells,
    pub operands: Cells,
}

impl Act {
    ghost use Rattle.cell_core.specs.Sites.{records};

    /// Whether it may write: then its site is a record site.
    pub const fn records(self) -> bool
        ensures { result ≡ records self }
    {
        !matches!(self, Act::Lookup | Act::Load(..))
    }
}
