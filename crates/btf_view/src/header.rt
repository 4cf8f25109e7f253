//! The header, and the parts that it names.

ghost use Rattle.std.specs.Prelude.{◌≡◌, ◌+◌, ◌^◌, ◌<◌, ◌≤◌, length, OnOk};
ghost use Rattle.btf_view.specs.File.{hdr_len, part, str_len, str_off, type_len, type_off};
ghost use Rattle.btf_view.specs.Rules.{FailsAs, is_outside, short_header, short_parts, wrong_magic};

use crate::error::BtfError;
use crate::read::{u16_at, u32_at};

/// The magic number of BTF.
const BTF_MAGIC: u16 = 0xeb9f;

/// The least header is whole.
#[tactic(auto, unfolding(crate::specs::Rules::short_header))]
pub fn check_length(bytes: &[u8]) -> Result<(), BtfError>
    ensures error { FailsAs result (short_header bytes.now) }
    ensures whole { OnOk result (24 ≤ length bytes.now) }
{
    if bytes.len() < 24 {
        return Err(BtfError::Short);
    }
    Ok(())
}

/// The magic number and the version.
#[tactic(auto, unfolding(crate::specs::Rules::wrong_magic))]
pub fn check_magic(bytes: &[u8]) -> Result<(), BtfError>
    requires { 24 ≤ length bytes.now }
    ensures { FailsAs result (wrong_magic bytes.now) }
{
    if u16_at(bytes, 0) == BTF_MAGIC && bytes[2] == 1 {
        return Ok(());
    }
    Err(BtfError::Magic)
}

/// Whether a part ends after the bytes.
fn is_outside(bytes: &[u8], off: u32, len: u32) -> bool
    requires { 24 ≤ length bytes.now }
    ensures { result ≡ is_outside bytes.now off len }
{
    (bytes.len() as u64) < u64::from(u32_at(bytes, 4)) + u64::from(off) + u64::from(len)
}

/// The length of the header, and the places of the parts.
#[tactic(auto, unfolding(crate::specs::Rules::short_parts))]
pub fn check_parts(bytes: &[u8]) -> Result<(), BtfError>
    requires { 24 ≤ length bytes.now }
    ensures error { FailsAs result (short_parts bytes.now) }
    ensures types { OnOk result (hdr_len bytes.now + type_off bytes.now + type_len bytes.now ≤ length bytes.now) }
    ensures strings { OnOk result (hdr_len bytes.now + str_off bytes.now + str_len bytes.now ≤ length bytes.now) }
{
    if u32_at(bytes, 4) < 24
        || is_outside(bytes, u32_at(bytes, 8), u32_at(bytes, 12))
        || is_outside(bytes, u32_at(bytes, 16), u32_at(bytes, 20))
    {
        return Err(BtfError::Short);
    }
    Ok(())
}

/// A part that stands in the bytes.
fn part(bytes: &[u8], off: u32, len: u32) -> &[u8]
    requires whole { 24 ≤ length bytes.now }
    requires inside { hdr_len bytes.now + off + len ≤ length bytes.now }
    ensures bytes { result.now ≡ part bytes.now off len }
    ensures few { length result.now < 2 ^ 32 }
{
    let (_, tail) = bytes.split_at(u32_at(bytes, 4) as usize + off as usize);
    &tail[..len as usize]
}

/// The type part.
pub fn type_part(bytes: &[u8]) -> &[u8]
    requires whole { 24 ≤ length bytes.now }
    requires inside { hdr_len bytes.now + type_off bytes.now + type_len bytes.now ≤ length bytes.now }
    ensures bytes { result.now ≡ part bytes.now (type_off bytes.now) (type_len bytes.now) }
    ensures few { length result.now < 2 ^ 32 }
{
    part(bytes, u32_at(bytes, 8), u32_at(bytes, 12))
}

/// The string part.
pub fn string_part(bytes: &[u8]) -> &[u8]
    requires whole { 24 ≤ length bytes.now }
    requires inside { hdr_len bytes.now + str_off bytes.now + str_len bytes.now ≤ length bytes.now }
    ensures { result.now ≡ part bytes.now (str_off bytes.now) (str_len bytes.now) }
{
    part(bytes, u32_at(bytes, 16), u32_at(bytes, 20))
}
