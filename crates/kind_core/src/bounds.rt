// Bounds of numbers that are not known.

ghost use Rattle.std.specs.Prelude.{◌≡◌, ◌<◌, ◌*◌, ◌/◌, ◌%◌, ◌^◌, nat_lt};
ghost use Rattle.std.specs.Bool.{OnTrue};
ghost use Rattle.xdp_machine.specs.Arithmetic.{bits_in};
ghost use Rattle.kind_core.specs.NumberBounds.{has_bits, in_bits, on_bounds, sum_bounds, product_bounds, masked_bounds, counted, bounds};

use crate::number::{Number, any};
use xdp_machine::bpf_isa::{AluCode, Src, Width};

// Whether a number has so many bits.
fn fits(width: Width, n: u128) -> bool
    ensures value { result ≡ nat_lt n (2 ^ bits_in width) }
    ensures small { OnTrue result (n < 2 ^ 64) }
{
    match width {
        Width::Bits32 => n < 0x1_0000_0000,
        Width::Bits64 => n < 0x1_0000_0000_0000_0000,
    }
}

// Whether both bounds have so many bits.
fn has_bits(width: Width, n: Number) -> bool
    ensures { result ≡ has_bits (bits_in width) n }
{
    fits(width, u128::from(n.lower())) && fits(width, u128::from(n.upper()))
}

/// A number of so many bits, between its bounds if they have so many.
pub(crate) fn in_bits(width: Width, n: Number) -> Number
    ensures { result ≡ in_bits (bits_in width) n }
{
    if has_bits(width, n) { n } else { any(width) }
}

// A number of so many bits, between these bounds if they have so many.
fn between(width: Width, lo: u128, hi: u128) -> Number
    ensures { result ≡ in_bits (bits_in width) (Number.Between lo hi) }
{
    if fits(width, lo) && fits(width, hi) {
        Number::Between(lo as u64, hi as u64)
    } else {
        any(width)
    }
}

/// The bounds of a sum.
pub(crate) fn sum(width: Width, a: Number, b: Number) -> Number
    ensures { result ≡ sum_bounds (bits_in width) a b }
{
    if has_bits(width, a) && has_bits(width, b) {
        let lo = u128::from(a.lower()) + u128::from(b.lower());
        let hi = u128::from(a.upper()) + u128::from(b.upper());
        between(width, lo, hi)
    } else {
        any(width)
    }
}

// The bounds of a product with a known number.
#[tactic(auto, using(crate::proofs::BoundLaws::product_fits))]
fn product(width: Width, n: Number, c: u64) -> Number
    ensures { result ≡ product_bounds (bits_in width) n c }
{
    if fits(width, u128::from(c)) {
        if has_bits(width, n) {
            let lo = u128::from(n.lower()) * u128::from(c);
            let hi = u128::from(n.upper()) * u128::from(c);
            between(width, lo, hi)
        } else {
            any(width)
        }
    } else {
        any(width)
    }
}

// The count of a shift.
fn count(width: Width, c: u64) -> u32
    ensures value { result ≡ c % bits_in width }
    ensures small { result < 64 }
{
    match width {
        Width::Bits32 => (c % 32) as u32,
        Width::Bits64 => (c % 64) as u32,
    }
}

// The bounds of a number shifted to the left.
#[tactic(auto, using(crate::proofs::BoundLaws::shifted_whole))]
fn shifted_left(width: Width, n: Number, c: u64) -> Number
    ensures { result ≡ on_bounds (bits_in width) (λ m. m * 2 ^ (c % bits_in width)) n }
{
    let bits = count(width, c);
    let lo = u128::from(n.lower()) << bits;
    let hi = u128::from(n.upper()) << bits;
    if has_bits(width, n) {
        between(width, lo, hi)
    } else {
        any(width)
    }
}

// The bounds of a number shifted to the right.
fn shifted_right(width: Width, n: Number, c: u64) -> Number
    ensures { result ≡ on_bounds (bits_in width) (λ m. m / 2 ^ (c % bits_in width)) n }
{
    let bits = count(width, c);
    let lo = u128::from(n.lower() >> bits);
    let hi = u128::from(n.upper() >> bits);
    if has_bits(width, n) {
        between(width, lo, hi)
    } else {
        any(width)
    }
}

// The bounds of a number of which a known one masks the bits.
fn masked(width: Width, n: Number, c: u64) -> Number
    ensures { result ≡ masked_bounds (bits_in width) n c }
{
    let mask = match width {
        Width::Bits32 => c % (1 << 32),
        Width::Bits64 => c,
    };
    Number::Between(0, n.upper().min(mask))
}

/// A number as a bound: an immediate one of class ALU counts as its 32 bits.
pub(crate) fn counted(width: Width, src: Src, n: Number) -> Number
    ensures { result ≡ counted width src n }
{
    match (width, src, n) {
        (Width::Bits32, Src::K, Number::Known(c)) => Number::Known(c % (1 << 32)),
        _ => n,
    }
}

// The bounds of a product.
fn products(width: Width, a: Number, b: Number) -> Number
    ensures { result ≡ bounds AluCode.Mul (bits_in width) a b }
{
    match (a, b) {
        (_, Number::Known(c)) => product(width, a, c),
        (Number::Known(c), Number::Between(_, _)) => product(width, b, c),
        (Number::Between(_, _), Number::Between(_, _)) => any(width),
    }
}

// The bounds of AND.
fn masks(width: Width, a: Number, b: Number) -> Number
    ensures { result ≡ bounds AluCode.And (bits_in width) a b }
{
    match (a, b) {
        (_, Number::Known(c)) => masked(width, a, c),
        (Number::Known(c), Number::Between(_, _)) => masked(width, b, c),
        (Number::Between(_, _), Number::Between(_, _)) => any(width),
    }
}

/// The bounds of an operation of which not both numbers are known.
pub(crate) fn bounds(code: AluCode, width: Width, a: Number, b: Number) -> Number
    ensures { result ≡ bounds code (bits_in width) a b }
{
    match code {
        AluCode::Add => sum(width, a, b),
        AluCode::Mul => products(width, a, b),
        AluCode::And => masks(width, a, b),
        AluCode::Lsh => match b {
            Number::Known(c) => shifted_left(width, a, c),
            Number::Between(_, _) => any(width),
        },
        AluCode::Rsh => match b {
            Number::Known(c) => shifted_right(width, a, c),
            Number::Between(_, _) => any(width),
        },
        _ => any(width),
    }
}
