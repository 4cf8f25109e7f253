// The bits of a word by their places.

ghost use Rattle.std.specs.Prelude.{◌≡◌, ◌+◌, ◌-◌, ◌*◌, ◌^◌, ◌<◌, ◌≤◌, ◌⊎◌};
ghost use Rattle.bits_core.specs.Bits.{mask_of, slice_of, join_of, swap_of};

/// The greatest number of `w` bits, `2^w - 1`, where `w` is at most 64.
pub const fn mask(w: u32) -> u64
    requires { w ≤ 64 }
    ensures { result ≡ mask_of w }
{
    if w == 64 { u64::MAX } else { (1 << w) - 1 }
}

/// Bits `hi` to `lo` of `v`, both included.
pub const fn slice(v: u64, hi: u32, lo: u32) -> u64
    requires order { lo ≤ hi }
    requires inside { hi ≤ 63 }
    ensures value { result ≡ slice_of v hi lo }
    ensures word { result < 2 ^ (hi - lo + 1) }
{
    (v >> lo) & mask(hi - lo + 1)
}

/// `hi` followed by the `w` bits of `lo`: `hi * 2^w + lo`.
pub const fn join(hi: u64, lo: u64, w: u32) -> u64
    requires width { w ≤ 63 }
    requires low { lo < 2 ^ w }
    requires fits { join_of hi lo w < 2 ^ 64 }
    ensures { result ≡ join_of hi lo w }
{
    (hi << w) | lo
}

/// `v` of 16, 32 or 64 bits with its bytes in the other order.
pub const fn swap(v: u64, w: u32) -> u64
    requires width { (w ≡ 16) ⊎ ((w ≡ 32) ⊎ (w ≡ 64)) }
    requires word { v < 2 ^ w }
    ensures value { result ≡ swap_of v w }
    ensures word { result < 2 ^ w }
{
    match w {
        16 => (v as u16).swap_bytes() as u64,
        32 => (v as u32).swap_bytes() as u64,
        _ => v.swap_bytes(),
    }
}
