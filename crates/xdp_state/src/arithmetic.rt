// The operations on numbers.

ghost use Rattle.std.specs.Prelude.{◌≡◌, ◌^◌, ◌<◌, ◌≤◌, ◌⊎◌};
ghost use Rattle.xdp_machine.specs.bits_core.Bits.{signed_of};
ghost use Rattle.xdp_machine.specs.Arithmetic.{arithmetic, bits_in, low, negated, extended, ordered, holds};

use xdp_machine::bits_core::{arsh, div_s, div_u, mod_s, mod_u, sext, swap};
use xdp_machine::bpf_isa::{AluCode, JumpCode, Src, Width};

/// The low bits that an operation works on.
pub fn low(width: Width, n: u64) -> u64
    ensures value { result ≡ low (bits_in width) n }
    ensures word { result < 2 ^ bits_in width }
{
    match width {
        Width::Bits32 => n % (1 << 32),
        Width::Bits64 => n,
    }
}

/// An operation on two numbers of 64 bits.
fn in_64(code: AluCode, signed: bool, a: u64, b: u64) -> u64
    ensures { result ≡ arithmetic code signed 64 a b }
{
    match code {
        AluCode::Add => a.wrapping_add(b),
        AluCode::Sub => a.wrapping_sub(b),
        AluCode::Mul => a.wrapping_mul(b),
        AluCode::Div if signed => div_s(a, b, 64),
        AluCode::Div => div_u(a, b),
        AluCode::Mod if signed => mod_s(a, b, 64),
        AluCode::Mod => mod_u(a, b),
        AluCode::Or => a | b,
        AluCode::And => a & b,
        AluCode::Xor => a ^ b,
        AluCode::Lsh => a << (b % 64),
        AluCode::Rsh => a >> (b % 64),
        AluCode::Arsh => arsh(a, (b % 64) as u32, 64),
        AluCode::Mov => b,
    }
}

/// An operation on two numbers of 32 bits.
fn in_32(code: AluCode, signed: bool, a: u32, b: u32) -> u64
    ensures { result ≡ arithmetic code signed 32 a b }
{
    match code {
        AluCode::Add => u64::from(a.wrapping_add(b)),
        AluCode::Sub => u64::from(a.wrapping_sub(b)),
        AluCode::Mul => u64::from(a.wrapping_mul(b)),
        AluCode::Div if signed => div_s(u64::from(a), u64::from(b), 32),
        AluCode::Div => div_u(u64::from(a), u64::from(b)),
        AluCode::Mod if signed => mod_s(u64::from(a), u64::from(b), 32),
        AluCode::Mod => mod_u(u64::from(a), u64::from(b)),
        AluCode::Or => u64::from(a | b),
        AluCode::And => u64::from(a & b),
        AluCode::Xor => u64::from(a ^ b),
        AluCode::Lsh => u64::from(a << (b % 32)),
        AluCode::Rsh => u64::from(a >> (b % 32)),
        AluCode::Arsh => arsh(u64::from(a), b % 32, 32),
        AluCode::Mov => u64::from(b),
    }
}

/// An operation on the low bits of two numbers.
pub fn arithmetic(code: AluCode, signed: bool, width: Width, a: u64, b: u64) -> u64
    ensures { result ≡ arithmetic code signed (bits_in width) (low (bits_in width) a) (low (bits_in width) b) }
{
    match width {
        Width::Bits32 => in_32(code, signed, (a % (1 << 32)) as u32, (b % (1 << 32)) as u32),
        Width::Bits64 => in_64(code, signed, a, b),
    }
}

/// The number with the other sign.
pub fn negated(width: Width, n: u64) -> u64
    ensures { result ≡ negated (bits_in width) n }
{
    match width {
        Width::Bits32 => u64::from(0u32.wrapping_sub((n % (1 << 32)) as u32)),
        Width::Bits64 => 0u64.wrapping_sub(n),
    }
}

/// What MOV makes of a number: with a count of 8, 16 or 32 the sign of so many bits is extended.
pub fn extended(width: Width, count: u64, n: u64) -> u64
    requires { count ≤ 32 }
    ensures { result ≡ extended (bits_in width) count n }
{
    if count == 0 {
        return low(width, n);
    }
    let bits = count as u32;
    low(width, sext(n % (1 << bits), bits))
}

/// The low 16, 32 or 64 bits of a number, with their bytes reversed where they go to big-endian.
pub fn ordered(order: Src, bits: u32, n: u64) -> u64
    requires { (bits ≡ 16) ⊎ ((bits ≡ 32) ⊎ (bits ≡ 64)) }
    ensures { result ≡ ordered order bits n }
{
    let kept = if bits == 64 { n } else { n % (1 << bits) };
    match order {
        Src::K => kept,
        Src::X => swap(kept, bits),
    }
}

// The signed number that the low bits of a number stand for.
fn signed(width: Width, n: u64) -> i64
    requires { n < 2 ^ bits_in width }
    ensures { result ≡ signed_of (bits_in width) n }
{
    match width {
        Width::Bits32 => i64::from((n as u32).cast_signed()),
        Width::Bits64 => n.cast_signed(),
    }
}

// The condition of a jump on two numbers of the width.
fn holds_in(code: JumpCode, width: Width, a: u64, b: u64) -> bool
    requires first { a < 2 ^ bits_in width }
    requires second { b < 2 ^ bits_in width }
    ensures { result ≡ holds code (bits_in width) a b }
{
    match code {
        JumpCode::Jeq => a == b,
        JumpCode::Jne => a != b,
        JumpCode::Jset => a & b != 0,
        JumpCode::Jgt => a > b,
        JumpCode::Jge => a >= b,
        JumpCode::Jlt => a < b,
        JumpCode::Jle => a <= b,
        JumpCode::Jsgt => signed(width, a) > signed(width, b),
        JumpCode::Jsge => signed(width, a) >= signed(width, b),
        JumpCode::Jslt => signed(width, a) < signed(width, b),
        JumpCode::Jsle => signed(width, a) <= signed(width, b),
    }
}

/// The condition of a jump on the low bits of two numbers.
pub fn holds(code: JumpCode, width: Width, a: u64, b: u64) -> bool
    ensures { result ≡ holds code (bits_in width) (low (bits_in width) a) (low (bits_in width) b) }
{
    holds_in(code, width, low(width, a), low(width, b))
}
