//! Bytes as hexadecimal digits.

ghost use Rattle.std.specs.Prelude.{◌≡◌, ◌↔◌, ◌≤◌, ◌++◌, length, is_ok, IsTrue, Some, None, OnOk, MatchResult};
ghost use Rattle.std.specs.List.{AllPass};
ghost use Rattle.hex.specs.Hex.{decode_of, decode_sized, encode_lower, is_hex_digit};

use std::alloc::AllocError;
use xdp_maps::short::ShortBytes;

/// Whether a text is digits of either case, two for each byte.
pub(crate) fn are_digits(text: &[u8]) -> bool
    ensures { result ≡ is_ok (decode_of text.now) }
{
    text.len() % 2 == 0 && all_digits(text)
}

fn all_digits(text: &[u8]) -> bool
    ensures { IsTrue result ↔ AllPass is_hex_digit text.now }
{
    text.iter().all(|byte| is_digit(*byte))
}

fn is_digit(byte: u8) -> bool
    ensures { result ≡ is_hex_digit byte }
{
    matches!(byte, b'0'..=b'9' | b'A'..=b'F' | b'a'..=b'f')
}

/// The bytes of digits, if there are so many.
pub(crate) fn bytes_of(digits: &[u8], len: usize) -> Option<ShortBytes>
    requires { len ≤ 64 }
    ensures { MatchResult (decode_sized digits.now len) (λ bytes. result ≡ Some bytes) (λ _. result ≡ None) }
{
    let mut bytes = [0; ShortBytes::MAX_LEN];
    let room = &mut bytes[..len];
    match hex::decode_to_slice(digits, room) {
        Ok(()) => Some(ShortBytes::of(room)),
        Err(_) => None,
    }
}

/// Adds the digits of at most 64 bytes, in lower case.
pub(crate) fn push_digits(text: &mut Vec<u8>, bytes: &[u8]) -> Result<(), AllocError>
    requires { length bytes.now ≤ 64 }
    ensures { OnOk result (text.new.items ≡ text.old.items ++ encode_lower bytes.now) }
{
    let mut room = [0; 2 * ShortBytes::MAX_LEN];
    let digits = &mut room[..2 * bytes.len()];
    hex::encode_to_slice(bytes, digits).unwrap();
    text.extend_from_slice(digits)
}
