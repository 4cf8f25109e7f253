// Conditions of jumps.

ghost use Rattle.std.specs.Prelude.{◌≡◌};
ghost use Rattle.kind_core.specs.Conditions.{of_numbers, bounds_test, mirrored, null_test, against_number, null_condition, pointer_condition, condition_of};

use crate::base::base_test;
use crate::kind::Kind;
use crate::number::{self, Number};
use xdp_machine::bpf_isa::{JumpCode, Width};
use xdp_state::Why;

/// What the kinds say of a condition.
#[derive(Copy, Clone)]
pub(crate) enum Condition {
    /// Whether the jump is taken is known.
    Decided(bool),
    /// Numbers, of which not both are known.
    Open,
    /// The answer of the lookup at a node against 0: on the edge with this `taken` it is 0.
    NullTest(bool, u32),
    /// A place in the packet against its end: on the edge with this `taken` so many bytes are there.
    BoundsTest(bool, u32),
    /// A place at a distance from a base against the packet's end: on the edge with this `taken` so many bytes from the base that a
    /// node gave are there.
    BaseTest(bool, u32, i32),
}

// A condition on numbers.
fn of_numbers(taken: Option<bool>) -> Condition
    ensures { result ≡ of_numbers taken }
{
    match taken {
        Some(taken) => Condition::Decided(taken),
        None => Condition::Open,
    }
}

// A place in the packet before its end.
fn bounds_test(code: JumpCode, o: u16) -> Result<Condition, Why>
    ensures { result ≡ bounds_test code o }
{
    let bytes = u32::from(o);
    match code {
        JumpCode::Jgt => Ok(Condition::BoundsTest(false, bytes)),
        JumpCode::Jge => Ok(Condition::BoundsTest(false, bytes + 1)),
        JumpCode::Jlt => Ok(Condition::BoundsTest(true, bytes + 1)),
        JumpCode::Jle => Ok(Condition::BoundsTest(true, bytes)),
        _ => Err(Why::Use),
    }
}

// The same condition with its sides exchanged.
fn mirrored(code: JumpCode) -> JumpCode
    ensures { result ≡ mirrored code }
{
    match code {
        JumpCode::Jgt => JumpCode::Jlt,
        JumpCode::Jge => JumpCode::Jle,
        JumpCode::Jlt => JumpCode::Jgt,
        JumpCode::Jle => JumpCode::Jge,
        _ => code,
    }
}

// A test against 0, which holds where the sides are equal or where they are not.
fn null_test(equal: bool, kind: Kind) -> Result<Condition, Why>
    ensures { result ≡ null_test equal kind }
{
    match kind {
        Kind::Maybe(_, node) => Ok(Condition::NullTest(equal, node)),
        Kind::Entry(_, _) => Ok(Condition::Decided(!equal)),
        _ => Err(Why::Use),
    }
}

// A pointer against a number.
fn against_number(code: JumpCode, kind: Kind, n: Number) -> Result<Condition, Why>
    ensures { result ≡ against_number code kind n }
{
    match (code, n) {
        (JumpCode::Jeq, Number::Known(0)) => null_test(true, kind),
        (JumpCode::Jne, Number::Known(0)) => null_test(false, kind),
        _ => Err(Why::Use),
    }
}

// A pointer on either side of a number.
fn null_condition(code: JumpCode, a: Kind, b: Kind) -> Result<Condition, Why>
    ensures { result ≡ null_condition code a b }
{
    match (a, b) {
        (_, Kind::Num(y)) => against_number(code, a, y),
        (Kind::Num(x), _) => against_number(code, b, x),
        _ => Err(Why::Use),
    }
}

// A condition on pointers.
fn pointer_condition(code: JumpCode, a: Kind, b: Kind) -> Result<Condition, Why>
    ensures { result ≡ pointer_condition code a b }
{
    match (a, b) {
        (Kind::Packet(o), Kind::End) => bounds_test(code, o),
        (Kind::End, Kind::Packet(o)) => bounds_test(mirrored(code), o),
        (Kind::Var(base, f), Kind::End) => base_test(code, base.node, f),
        (Kind::End, Kind::Var(base, f)) => base_test(mirrored(code), base.node, f),
        _ => null_condition(code, a, b),
    }
}

/// The condition of a jump.
pub(crate) fn condition_of(width: Width, code: JumpCode, a: Kind, b: Kind) -> Result<Condition, Why>
    ensures { result ≡ condition_of width code a b }
{
    match (a, b) {
        (Kind::Num(x), Kind::Num(y)) => Ok(of_numbers(number::holds(code, width, x, y))),
        _ => match width {
            Width::Bits64 => pointer_condition(code, a, b),
            Width::Bits32 => Err(Why::Use),
        },
    }
}
