//! Reading the numbers of a part, and the fields of a type's record.

ghost use Rattle.std.specs.Prelude.{◌≡◌, ◌+◌, ◌^◌, ◌<◌, ◌≤◌, length};
ghost use Rattle.btf_view.specs.Numbers.{u16_at, u32_at};
ghost use Rattle.btf_view.specs.Types.{kind_at, record_size, vlen_at};

use crate::kind::{TypeKind, data_size, kind_of};
use byteorder::{ByteOrder, LittleEndian};

/// The number of 2 bytes at a place.
#[tactic(auto, unfolding(crate::specs::Numbers::u16_at))]
pub fn u16_at(bytes: &[u8], at: usize) -> u16
    requires { at + 2 ≤ length bytes.now }
    ensures { result ≡ u16_at bytes.now at }
{
    LittleEndian::read_u16(&bytes[at..])
}

/// The number of 4 bytes at a place.
#[tactic(auto, unfolding(crate::specs::Numbers::u32_at))]
pub fn u32_at(bytes: &[u8], at: usize) -> u32
    requires { at + 4 ≤ length bytes.now }
    ensures { result ≡ u32_at bytes.now at }
{
    LittleEndian::read_u32(&bytes[at..])
}

/// The kind of the type whose record stands at a place.
#[tactic(auto, unfolding(crate::specs::Types::kind_at))]
pub fn kind_at(types: &[u8], at: usize) -> Option<TypeKind>
    requires { at + 12 ≤ length types.now }
    ensures { result ≡ kind_at types.now at }
{
    kind_of(u32_at(types, at + 4) / 0x100_0000 % 32)
}

/// How many members, values, parameters or variables it has.
pub fn vlen_at(types: &[u8], at: usize) -> u32
    requires { at + 12 ≤ length types.now }
    ensures number { result ≡ vlen_at types.now at }
    ensures small { result < 2 ^ 16 }
{
    u32_at(types, at + 4) % 0x1_0000
}

/// The size of the record and its data.
#[tactic(auto, unfolding(crate::specs::Types::record_size))]
pub fn record_size(types: &[u8], at: usize) -> usize
    requires { at + 12 ≤ length types.now }
    ensures size { result ≡ record_size types.now at }
    ensures least { 12 ≤ result }
    ensures small { result < 2 ^ 21 }
{
    match kind_at(types, at) {
        Some(kind) => 12 + data_size(kind, vlen_at(types, at)),
        None => 12,
    }
}
