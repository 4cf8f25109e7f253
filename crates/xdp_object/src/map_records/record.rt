//! Records of the section `maps`.

ghost use Rattle.std.specs.Prelude.{◌≡◌, ◌≤◌, ◌+◌, ◌==◌, length};
ghost use Rattle.std.specs.List.{list_all};
ghost use Rattle.btf_view.specs.Numbers.{u32_at};
ghost use Rattle.xdp_object.specs.MapRecords.Records.{record_fields, words_of};

use crate::map_records::fault::MapRule;
use btf_view::MapFields;
use byteorder::{ByteOrder, LittleEndian};

/// The size of a record.
const RECORD: usize = 20;

/// The number of 4 bytes at a place.
#[tactic(auto, unfolding(btf_view::specs::Numbers::u32_at))]
fn u32_at(bytes: &[u8], at: usize) -> u32
    requires { at + 4 ≤ length bytes.now }
    ensures { result ≡ u32_at bytes.now at }
{
    LittleEndian::read_u32(&bytes[at..])
}

/// The numbers of a whole record.
fn words_of(bytes: &[u8]) -> MapFields
    requires { 20 ≤ length bytes.now }
    ensures { result ≡ words_of bytes.now }
{
    MapFields {
        kind: Some(u32_at(bytes, 0)),
        key: u32_at(bytes, 4),
        value: u32_at(bytes, 8),
        cap: u32_at(bytes, 12),
        flags: u32_at(bytes, 16),
    }
}

/// Whether all bytes are zero.
fn are_zero(bytes: &[u8]) -> bool
    ensures { result ≡ list_all (λ b. b == 0) bytes.now }
{
    for byte in bytes {
        if *byte != 0 {
            return false;
        }
    }
    true
}

/// The numbers that a record of `size` bytes says, from place `value` of its section on. It fails with `Record`, then with
/// `Tail`.
#[tactic(auto, unfolding(crate::specs::MapRecords::Records::record_fields))]
pub fn record_fields(section: &[u8], value: u64, size: u64) -> Result<MapFields, MapRule>
    ensures { result ≡ record_fields section.now value size }
{
    if u128::from(value) + u128::from(size) > section.len() as u128 || size < RECORD as u64 {
        return Err(MapRule::Record);
    }
    let from_record = &section[value as usize..];
    let bytes = &from_record[..size as usize];
    if !are_zero(&bytes[RECORD..]) {
        return Err(MapRule::Tail);
    }
    Ok(words_of(bytes))
}
