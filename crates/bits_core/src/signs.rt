// Words as signed numbers in two's complement.

ghost use Rattle.std.specs.Prelude.{◌≡◌, ◌^◌, ◌<◌, ◌≤◌, ◌⊎◌};
ghost use Rattle.bits_core.specs.Bits.{sext_of, arsh_of};

use crate::fields::mask;

/// The signed number of the `w` bits `v`, in 64 bits: the highest of the `w` bits is repeated.
pub const fn sext(v: u64, w: u32) -> u64
    requires some { 1 ≤ w }
    requires width { w ≤ 64 }
    requires word { v < 2 ^ w }
    ensures { result ≡ sext_of v w }
{
    if v < 1 << (w - 1) { v } else { v + !mask(w) }
}

/// The signed word `v` of 32 or 64 bits shifted to the right by `n`: rounded down, the sign kept.
pub const fn arsh(v: u64, n: u32, w: u32) -> u64
    requires width { (w ≡ 32) ⊎ (w ≡ 64) }
    requires word { v < 2 ^ w }
    requires count { n < w }
    ensures value { result ≡ arsh_of v n w }
    ensures word { result < 2 ^ w }
{
    (sext(v, w).cast_signed() >> n).cast_unsigned() & mask(w)
}
