//! What is known of a number of 64 bits.

ghost use Rattle.std.specs.Prelude.{◌≡◌, ◌+◌, ◌*◌, ◌≤◌, ◌⊎◌};
ghost use Rattle.xdp_machine.specs.Arithmetic.{bits_in};
ghost use Rattle.xdp_machine.specs.Memory.{bytes_in};
ghost use Rattle.kind_core.specs.NumberBounds.{lower, upper, unknown, any_number};
ghost use Rattle.kind_core.specs.Numbers.{number_arithmetic, number_sum, number_difference, number_negated, moved_number, number_extended, end_bits, number_ordered, number_holds, any_bytes, number_part, number_patched, join_number};

use crate::bounds;
use xdp_machine::bpf_isa::{AluCode, JumpCode, Size, Src, Width};
use xdp_state::{arithmetic, memory};

#[derive(Copy, Clone, Debug, PartialEq, Eq)]
pub enum Number {
    /// This number.
    Known(u64),
    /// One that is not known, between these two.
    Between(u64, u64),
}

impl Number {
    /// The least that it may be.
    pub fn lower(self) -> u64
        ensures { result ≡ lower self }
    {
        match self {
            Number::Known(x) => x,
            Number::Between(lo, _) => lo,
        }
    }

    /// The greatest that it may be.
    pub fn upper(self) -> u64
        ensures { result ≡ upper self }
    {
        match self {
            Number::Known(x) => x,
            Number::Between(_, hi) => hi,
        }
    }
}

// A number of which the bounds alone are known.
fn unknown(n: Number) -> Number
    ensures { result ≡ unknown n }
{
    Number::Between(n.lower(), n.upper())
}

/// Any number of so many bits.
pub fn any(width: Width) -> Number
    ensures { result ≡ any_number (bits_in width) }
{
    match width {
        Width::Bits32 => Number::Between(0, 0xffff_ffff),
        Width::Bits64 => Number::Between(0, 0xffff_ffff_ffff_ffff),
    }
}

/// What so many bytes can be.
pub fn any_bytes(size: Size) -> Number
    ensures { result ≡ any_bytes size }
{
    match size {
        Size::B => Number::Between(0, 0xff),
        Size::H => Number::Between(0, 0xffff),
        Size::W => Number::Between(0, 0xffff_ffff),
        Size::Dw => Number::Between(0, 0xffff_ffff_ffff_ffff),
    }
}

/// An operation on the low bits of two numbers, the second from this source.
pub fn arithmetic(
    code: AluCode,
    signed: bool,
    width: Width,
    src: Src,
    a: Number,
    b: Number,
) -> Number
    ensures { result ≡ number_arithmetic code signed width src a b }
{
    match (a, b) {
        (Number::Known(x), Number::Known(y)) => {
            Number::Known(arithmetic::arithmetic(code, signed, width, x, y))
        }
        (Number::Known(_), Number::Between(_, _)) | (Number::Between(_, _), _) => {
            unknown(bounds::bounds(code, width, a, bounds::counted(width, src, b)))
        }
    }
}

/// The sum of two numbers.
pub fn sum(a: Number, b: Number) -> Number
    ensures { result ≡ number_sum a b }
{
    match (a, b) {
        (Number::Known(x), Number::Known(y)) => Number::Known(x.wrapping_add(y)),
        (Number::Known(_), Number::Between(_, _)) | (Number::Between(_, _), _) => {
            unknown(bounds::sum(Width::Bits64, a, b))
        }
    }
}

/// The difference of two numbers.
pub fn difference(a: Number, b: Number) -> Number
    ensures { result ≡ number_difference a b }
{
    match (a, b) {
        (Number::Known(x), Number::Known(y)) => Number::Known(x.wrapping_sub(y)),
        _ => any(Width::Bits64),
    }
}

/// The number with the other sign.
pub fn negated(width: Width, n: Number) -> Number
    ensures { result ≡ number_negated width n }
{
    match n {
        Number::Known(x) => Number::Known(arithmetic::negated(width, x)),
        Number::Between(_, _) => any(width),
    }
}

// What MOV leaves of the bounds of a number that is not known.
fn moved(width: Width, count: u64, n: Number) -> Number
    ensures { result ≡ moved_number width count n }
{
    match count {
        0 => bounds::in_bits(width, n),
        _ => any(width),
    }
}

/// What MOV makes of a number: with a count the sign of so many bits is extended.
pub fn extended(width: Width, count: u64, n: Number) -> Number
    requires { count ≤ 32 }
    ensures { result ≡ number_extended width count n }
{
    match n {
        Number::Known(x) => Number::Known(arithmetic::extended(width, count, x)),
        Number::Between(_, _) => unknown(moved(width, count, n)),
    }
}

/// As many bits as END makes of so many.
pub fn end_width(bits: u32) -> Width
    ensures { bits_in result ≡ end_bits bits }
{
    if bits == 64 {
        Width::Bits64
    } else {
        Width::Bits32
    }
}

/// The low 16, 32 or 64 bits of a number, with their bytes in an order; `most` are the bits that may come out.
pub fn ordered(most: Width, order: Src, bits: u32, n: Number) -> Number
    requires { (bits ≡ 16) ⊎ ((bits ≡ 32) ⊎ (bits ≡ 64)) }
    ensures { result ≡ number_ordered (bits_in most) order bits n }
{
    match n {
        Number::Known(x) => Number::Known(arithmetic::ordered(order, bits, x)),
        Number::Between(_, _) => any(most),
    }
}

/// The condition of a jump on the low bits of two numbers, where it is known.
pub fn holds(code: JumpCode, width: Width, a: Number, b: Number) -> Option<bool>
    ensures { result ≡ number_holds code width a b }
{
    match (a, b) {
        (Number::Known(x), Number::Known(y)) => Some(arithmetic::holds(code, width, x, y)),
        _ => None,
    }
}

/// A part of a number of eight bytes.
pub fn part(size: Size, at: usize, n: Number) -> Number
    requires { at + bytes_in size ≤ 8 }
    ensures { result ≡ number_part size at n }
{
    match n {
        Number::Known(x) => Number::Known(memory::number_at(&memory::bytes_of(x), at, size)),
        Number::Between(_, _) => any_bytes(size),
    }
}

/// A number of eight bytes with the low bytes of another stored over some of its own.
pub fn patched(size: Size, at: usize, old: Number, n: Number) -> Number
    requires { at + bytes_in size ≤ 8 }
    ensures { result ≡ number_patched size at old n }
{
    match (old, n) {
        (Number::Known(x), Number::Known(y)) => {
            Number::Known(memory::patched_number(x, at, size, y))
        }
        _ => any(Width::Bits64),
    }
}

/// What is known of a number that is one of two.
pub fn join_number(a: Number, b: Number) -> Number
    ensures { result ≡ join_number a b }
{
    match (a, b) {
        (Number::Known(x), Number::Known(y)) => {
            if x == y {
                Number::Known(x)
            } else {
                Number::Between(x.min(y), x.max(y))
            }
        }
        (Number::Known(x), Number::Between(lo, hi)) => Number::Between(x.min(lo), x.max(hi)),
        (Number::Between(lo, hi), _) => Number::Between(lo.min(b.lower()), hi.max(b.upper())),
    }
}
