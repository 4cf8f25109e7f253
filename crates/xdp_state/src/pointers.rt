// Arithmetic and conditions on values.

ghost use Rattle.std.specs.Prelude.{◌≡◌, ◌-ℤ◌, ◌≤ℤ◌, neg_ℤ, pos, negsuc, Some, unsigned_abs, ◌≤◌};
ghost use Rattle.std.specs.Option.{option_map};
ghost use Rattle.xdp_machine.specs.bits_core.Bits.{signed_of};
ghost use Rattle.xdp_machine.specs.Values as seen;
ghost use Rattle.xdp_machine.specs.Pointers.{moved, sum, difference, copied, computed, combined, in_order, against_null, compared};
ghost use Rattle.xdp_state.specs.Views.{value_of};

use crate::arithmetic::{arithmetic, extended, holds};
use crate::value::Value;
use xdp_machine::bpf_isa::{AluCode, JumpCode, Width};

/// The number that a value is.
pub fn number_in(value: &Value) -> Option<u64>
    ensures { result ≡ seen.number_in (value_of value.now) }
{
    match value {
        Value::Number(n) => Some(*n),
        _ => None,
    }
}

/// A pointer moved by a number with its sign.
fn moved_on(pointer: &Value, n: u64) -> Option<Value>
    ensures { option_map value_of result ≡ moved (value_of pointer.now) (signed_of 64 n) }
{
    let z = n.cast_signed();
    match pointer {
        Value::Packet(o) => Some(Value::Packet(o.checked_add(z)?)),
        Value::Stack(o) => Some(Value::Stack(o.checked_add(z)?)),
        Value::Entry(q, o, key) => Some(Value::Entry(*q, o.checked_add(z)?, *key)),
        _ => None,
    }
}

/// A pointer moved back by a number with its sign.
fn moved_back(pointer: &Value, n: u64) -> Option<Value>
    ensures { option_map value_of result ≡ moved (value_of pointer.now) (neg_ℤ (signed_of 64 n)) }
{
    let z = n.cast_signed();
    match pointer {
        Value::Packet(o) => Some(Value::Packet(o.checked_sub(z)?)),
        Value::Stack(o) => Some(Value::Stack(o.checked_sub(z)?)),
        Value::Entry(q, o, key) => Some(Value::Entry(*q, o.checked_sub(z)?, *key)),
        _ => None,
    }
}

/// ADD of 64 bits.
fn sum(a: &Value, b: &Value) -> Option<Value>
    ensures { option_map value_of result ≡ sum (value_of a.now) (value_of b.now) }
{
    match (a, b) {
        (Value::Number(x), Value::Number(y)) => Some(Value::Number(x.wrapping_add(*y))),
        (Value::Number(x), _) => moved_on(b, *x),
        (_, Value::Number(y)) => moved_on(a, *y),
        _ => None,
    }
}

/// SUB of 64 bits.
fn difference(a: &Value, b: &Value) -> Option<Value>
    ensures { option_map value_of result ≡ difference (value_of a.now) (value_of b.now) }
{
    match (a, b) {
        (Value::Number(x), Value::Number(y)) => Some(Value::Number(x.wrapping_sub(*y))),
        (Value::Packet(o), Value::Packet(p)) => {
            Some(Value::Number(o.wrapping_sub(*p).cast_unsigned()))
        }
        (_, Value::Number(y)) => moved_back(a, *y),
        _ => None,
    }
}

/// MOV.
fn copied(width: Width, count: u64, value: &Value) -> Option<Value>
    requires { count ≤ 32 }
    ensures { option_map value_of result ≡ copied width count (value_of value.now) }
{
    match (width, count, value) {
        (Width::Bits64, 0, Value::Unset) => None,
        (Width::Bits64, 0, _) => Some(*value),
        (_, _, Value::Number(n)) => Some(Value::Number(extended(width, count, *n))),
        _ => None,
    }
}

/// The other operations.
fn computed(width: Width, code: AluCode, signed: bool, a: &Value, b: &Value) -> Option<Value>
    ensures { option_map value_of result ≡ computed width code signed (value_of a.now) (value_of b.now) }
{
    match (a, b) {
        (Value::Number(x), Value::Number(y)) => {
            Some(Value::Number(arithmetic(code, signed, width, *x, *y)))
        }
        _ => None,
    }
}

/// An arithmetic instruction with this offset.
pub fn combined(width: Width, code: AluCode, offset: i16, a: &Value, b: &Value) -> Option<Value>
    requires { unsigned_abs offset ≤ 32 }
    ensures { option_map value_of result ≡ combined width code offset (value_of a.now) (value_of b.now) }
{
    match (width, code) {
        (_, AluCode::Mov) => copied(width, u64::from(offset.unsigned_abs()), b),
        (Width::Bits64, AluCode::Add) => sum(a, b),
        (Width::Bits64, AluCode::Sub) => difference(a, b),
        _ => computed(width, code, offset == 1, a, b),
    }
}

/// Places in the frame are compared by their order.
fn in_order(code: JumpCode, a: i64, b: i64) -> Option<bool>
    ensures { result ≡ in_order code a b }
{
    match code {
        JumpCode::Jgt => Some(a > b),
        JumpCode::Jge => Some(a >= b),
        JumpCode::Jlt => Some(a < b),
        JumpCode::Jle => Some(a <= b),
        _ => None,
    }
}

/// An entry is not the number 0.
fn against_null(code: JumpCode, n: u64) -> Option<bool>
    ensures { result ≡ against_null code n }
{
    match (code, n) {
        (JumpCode::Jeq, 0) => Some(false),
        (JumpCode::Jne, 0) => Some(true),
        _ => None,
    }
}

/// The condition of a jump, where it has a meaning.
pub fn compared(width: Width, code: JumpCode, a: &Value, b: &Value) -> Option<bool>
    ensures { result ≡ compared width code (value_of a.now) (value_of b.now) }
{
    match (width, a, b) {
        (_, Value::Number(x), Value::Number(y)) => Some(holds(code, width, *x, *y)),
        (Width::Bits64, Value::Packet(o), Value::Packet(p)) => in_order(code, *o, *p),
        (Width::Bits64, Value::Entry(_, _, _), Value::Number(n))
        | (Width::Bits64, Value::Number(n), Value::Entry(_, _, _)) => against_null(code, *n),
        _ => None,
    }
}
