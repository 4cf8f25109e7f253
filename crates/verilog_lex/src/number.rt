//! Numbers with a size and without.

ghost use Rattle.std.specs.Prelude.{◌≡◌, ◌≤◌, ◌<◌, ◌+◌, ◌^◌, length, min, IfSome};
ghost use Rattle.std.specs.Char.{digit_value};
ghost use Rattle.std.specs.List.{prefix_len};
ghost use Rattle.std.specs.Str.Parse.{digits_value};
ghost use Rattle.verilog_lex.specs.Bytes.{is_digit, is_digit_of};
ghost use Rattle.verilog_lex.specs.Number.{constant_in, has_leading_zero, radix_of, sized_kind};

use crate::token::TokenKind;

/// A number above every value of 64 bits stands for all such numbers.
const CAP: u128 = 1 << 64;

/// The number of decimal digits in front.
pub(crate) fn digits(text: &[u8]) -> usize
    ensures count { result ≡ prefix_len is_digit text.now }
    ensures within { result ≤ length text.now }
{
    text.iter().take_while(|c| c.is_ascii_digit()).count()
}

/// Whether a run of digits begins with a zero before another digit.
pub(crate) fn leading_zero(digits: &[u8]) -> bool
    ensures { result ≡ has_leading_zero digits.now }
{
    match digits {
        [first, _, ..] => *first == b'0',
        _ => false,
    }
}

// The value of a digit or of a letter as a digit, and 36 for any other byte.
fn digit(c: u8) -> u8
    ensures { result ≡ digit_value c }
{
    match c {
        b'0'..=b'9' => c - b'0',
        b'a'..=b'z' => c - b'a' + 10,
        b'A'..=b'Z' => c - b'A' + 10,
        _ => 36,
    }
}

fn is_digit_in(radix: u8, c: u8) -> bool
    ensures { result ≡ is_digit_of radix c }
{
    digit(c) < radix && !c.is_ascii_uppercase()
}

fn radix(base: u8) -> Option<u8>
    ensures base { result ≡ radix_of base }
    ensures within { IfSome result (λ r. (0 < r) × (r ≤ 16)) }
{
    match base {
        b'b' => Some(2),
        b'd' => Some(10),
        b'h' => Some(16),
        _ => None,
    }
}

// The number of a constant's digits in front.
fn constant_digits(radix: u8, text: &[u8]) -> usize
    ensures count { result ≡ prefix_len (is_digit_of radix) text.now }
    ensures within { result ≤ length text.now }
{
    text.iter().take_while(|c| is_digit_in(radix, **c)).count()
}

/// What of a constant follows its size: the radix, and how many digits.
pub(crate) fn constant(text: &[u8]) -> Option<(u8, usize)>
    ensures value { result ≡ constant_in text.now }
    ensures within { IfSome result (λ c. (0 < c.0) × (c.0 ≤ 16) × (2 + c.1 ≤ length text.now)) }
{
    match text {
        [b'\'', base, rest @ ..] => {
            let radix = radix(*base)?;
            let len = constant_digits(radix, rest);
            if len == 0 { None } else { Some((radix, len)) }
        }
        _ => None,
    }
}

/// The number that digits write, or the cap where it is above it.
pub(crate) fn number(radix: u8, digits: &[u8]) -> u128
    requires { (0 < radix) × (radix ≤ 16) }
    ensures { result ≡ min (digits_value radix digits.now) (2 ^ 64) }
{
    let mut value = 0;
    for c in digits {
        value = CAP.min(value * u128::from(radix) + u128::from(digit(*c)));
    }
    value
}

/// The kind of a constant of a size and a value, each known up to the cap.
pub(crate) fn sized(size: u128, value: u128) -> TokenKind
    requires { value ≤ 2 ^ 64 }
    ensures { result ≡ sized_kind size value }
{
    if 1 <= size && size <= 64 && value < 1 << size {
        TokenKind::Sized(size as u8, value as u64)
    } else {
        TokenKind::OutOfRange
    }
}
