// Arithmetic on kinds, pointers among them.

ghost use Rattle.std.specs.Prelude.{◌≡◌, ◌^◌, ◌+ℤ◌, ◌≤ℤ◌, ◌≤◌, pos, negsuc, IfOk, unsigned_abs};
ghost use Rattle.kind_core.specs.Pointers.{distance, stack_at, moved, sum, less_number, less_packet, less_end, difference, copied, computed, combined};

use crate::base::var_at;
use crate::kind::Kind;
use crate::number::{self, Number};
use crate::places::{WINDOW, value_bytes};
use crate::tests::{number_in, within};
use xdp_machine::bpf_isa::{AluCode, Src, Width};
use xdp_machine::xdp_maps::decl::MapDecl;
use xdp_state::Why;

// How far a number with its sign moves a pointer, on or back.
fn distance(back: bool, n: Number) -> Result<i128, Why>
    ensures value { result ≡ distance back n }
    ensures least { IfOk result (λ z. negsuc (2 ^ 64) ≤ℤ z) }
    ensures most { IfOk result (λ z. z ≤ℤ pos (2 ^ 64)) }
{
    match n {
        Number::Known(x) => {
            let z = i128::from(x.cast_signed());
            Ok(if back { 0 - z } else { z })
        }
        Number::Between(_, _) => Err(Why::Offset),
    }
}

// A place in the stack, from its end.
fn stack_at(z: i128) -> Result<Kind, Why>
    ensures { result ≡ stack_at z }
{
    if -512 <= z && z <= 0 {
        Ok(Kind::Stack(z as i16))
    } else {
        Err(Why::Offset)
    }
}

// A distance from an end or a base, moved on or back.
fn further(o: i16, z: i128) -> i128
    requires least { negsuc (2 ^ 64) ≤ℤ z }
    requires most { z ≤ℤ pos (2 ^ 64) }
    ensures { result ≡ o +ℤ z }
{
    i128::from(o) + z
}

/// A pointer moved by a number, on or back.
fn moved(decls: &[MapDecl], back: bool, kind: Kind, n: Number) -> Result<Kind, Why>
    ensures { result ≡ moved decls.now back kind n }
{
    match kind {
        Kind::Packet(o) => {
            let z = distance(back, n)?;
            let at = within(i128::from(o) + z, 0, WINDOW)?;
            Ok(Kind::Packet(at as u16))
        }
        Kind::Var(base, f) => {
            let z = distance(back, n)?;
            var_at(base, further(f, z))
        }
        Kind::Stack(o) => {
            let z = distance(back, n)?;
            stack_at(further(o, z))
        }
        Kind::Entry(q, o) => {
            let z = distance(back, n)?;
            let at = within(i128::from(o) + z, 0, value_bytes(decls, q) as usize)?;
            Ok(Kind::Entry(q, at as u32))
        }
        _ => Err(Why::Use),
    }
}

// ADD of 64 bits.
fn sum(decls: &[MapDecl], a: Kind, b: Kind) -> Result<Kind, Why>
    ensures { result ≡ sum decls.now a b }
{
    match (a, b) {
        (Kind::Num(x), Kind::Num(y)) => Ok(Kind::Num(number::sum(x, y))),
        (Kind::Num(x), _) => moved(decls, false, b, x),
        (_, Kind::Num(y)) => moved(decls, false, a, y),
        _ => Err(Why::Use),
    }
}

// A number taken from what a number or a pointer is.
fn less_number(decls: &[MapDecl], a: Kind, y: Number) -> Result<Kind, Why>
    ensures { result ≡ less_number decls.now a y }
{
    match a {
        Kind::Num(x) => Ok(Kind::Num(number::difference(x, y))),
        _ => moved(decls, true, a, y),
    }
}

// The distance from a place in the packet.
fn less_packet(a: Kind, p: u16) -> Result<Kind, Why>
    ensures { result ≡ less_packet a p }
{
    match a {
        Kind::Packet(o) => {
            let between = i64::from(o) - i64::from(p);
            Ok(Kind::Num(Number::Known(between.cast_unsigned())))
        }
        Kind::Var(_, _) | Kind::End => Ok(Kind::Num(number::any(Width::Bits64))),
        _ => Err(Why::Use),
    }
}

// The distance from a place in the packet that is not known, as its end.
fn less_end(a: Kind) -> Result<Kind, Why>
    ensures { result ≡ less_end a }
{
    match a {
        Kind::Packet(_) | Kind::Var(_, _) | Kind::End => {
            Ok(Kind::Num(number::any(Width::Bits64)))
        }
        _ => Err(Why::Use),
    }
}

// SUB of 64 bits.
fn difference(decls: &[MapDecl], a: Kind, b: Kind) -> Result<Kind, Why>
    ensures { result ≡ difference decls.now a b }
{
    match b {
        Kind::Num(y) => less_number(decls, a, y),
        Kind::Packet(p) => less_packet(a, p),
        Kind::Var(_, _) | Kind::End => less_end(a),
        _ => Err(Why::Use),
    }
}

// MOV.
fn copied(width: Width, count: u64, kind: Kind) -> Result<Kind, Why>
    requires { count ≤ 32 }
    ensures { result ≡ copied width count kind }
{
    match (width, count) {
        (Width::Bits64, 0) => Ok(kind),
        _ => Ok(Kind::Num(number::extended(width, count, number_in(kind)?))),
    }
}

// The other operations.
fn computed(
    width: Width,
    code: AluCode,
    signed: bool,
    src: Src,
    a: Kind,
    b: Kind,
) -> Result<Kind, Why>
    ensures { result ≡ computed width code signed src a b }
{
    let x = number_in(a)?;
    let y = number_in(b)?;
    Ok(Kind::Num(number::arithmetic(code, signed, width, src, x, y)))
}

/// An arithmetic instruction with this offset, and this source of the second operand.
pub(crate) fn combined(
    decls: &[MapDecl],
    width: Width,
    code: AluCode,
    offset: i16,
    src: Src,
    a: Kind,
    b: Kind,
) -> Result<Kind, Why>
    requires { unsigned_abs offset ≤ 32 }
    ensures { result ≡ combined decls.now width code offset src a b }
{
    match (width, code) {
        (_, AluCode::Mov) => copied(width, u64::from(offset.unsigned_abs()), b),
        (Width::Bits64, AluCode::Add) => sum(decls, a, b),
        (Width::Bits64, AluCode::Sub) => difference(decls, a, b),
        _ => computed(width, code, offset == 1, src, a, b),
    }
}
