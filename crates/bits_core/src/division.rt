// Division that has an answer for every divisor (RFC 9669, section 4.1).

ghost use Rattle.std.specs.Prelude.{◌≡◌, ◌^◌, ◌<◌, ◌⊎◌};
ghost use Rattle.bits_core.specs.Bits.{div_u_of, mod_u_of, div_s_of, mod_s_of};

use crate::fields::mask;
use crate::signs::sext;

/// The unsigned quotient, or 0 where the divisor is 0.
pub const fn div_u(a: u64, b: u64) -> u64
    ensures { result ≡ div_u_of a b }
{
    if b == 0 { 0 } else { a / b }
}

/// The unsigned remainder, or the dividend where the divisor is 0.
pub const fn mod_u(a: u64, b: u64) -> u64
    ensures { result ≡ mod_u_of a b }
{
    if b == 0 { a } else { a % b }
}

/// The quotient of two signed words of 32 or 64 bits, rounded toward 0. It is 0 where the divisor
/// is 0, and the least number divided by -1 gives itself.
pub const fn div_s(a: u64, b: u64, w: u32) -> u64
    requires width { (w ≡ 32) ⊎ (w ≡ 64) }
    requires dividend { a < 2 ^ w }
    requires divisor { b < 2 ^ w }
    ensures value { result ≡ div_s_of a b w }
    ensures word { result < 2 ^ w }
{
    if b == 0 {
        return 0;
    }
    let quotient = sext(a, w)
        .cast_signed()
        .wrapping_div(sext(b, w).cast_signed());
    quotient.cast_unsigned() & mask(w)
}

/// The remainder of two signed words of 32 or 64 bits, with the sign of the dividend. It is the
/// dividend where the divisor is 0, and 0 for the least number divided by -1.
pub const fn mod_s(a: u64, b: u64, w: u32) -> u64
    requires width { (w ≡ 32) ⊎ (w ≡ 64) }
    requires dividend { a < 2 ^ w }
    requires divisor { b < 2 ^ w }
    ensures value { result ≡ mod_s_of a b w }
    ensures word { result < 2 ^ w }
{
    if b == 0 {
        return a;
    }
    let remainder = sext(a, w)
        .cast_signed()
        .wrapping_rem(sext(b, w).cast_signed());
    remainder.cast_unsigned() & mask(w)
}
