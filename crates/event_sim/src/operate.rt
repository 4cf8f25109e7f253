//! Operators on words.

ghost use Rattle.std.specs.Prelude.{◌≡◌, ◌%◌, ◌^◌, ◌<◌, ◌≤◌};
ghost use Rattle.net_core.specs.Value.{apply, apply_unary, part_select, concatenated, bit};
ghost use Rattle.net_core.specs.Width.{Fits};
ghost use Rattle.event_sim.specs.Readable.{AreOperands, IsSelected, AreJoined};

use net_core::tree::{Op, UnaryOp, Word};

// The low bits of a number.
fn low(number: u128, width: u8) -> u64
    requires { width ≤ 64 }
    ensures { result ≡ number % 2 ^ width }
{
    (number % (1u128 << width)) as u64
}

// One bit.
fn bit(holds: bool) -> Word
    ensures { result ≡ bit holds }
{
    Word {
        width: 1,
        value: u64::from(holds),
    }
}

fn sum(a: Word, b: Word) -> Word
    requires { AreOperands Op.Add a b }
    ensures { result ≡ apply Op.Add a b }
{
    let width = a.width;
    let value = low(u128::from(a.value) + u128::from(b.value), width);
    Word { width, value }
}

fn difference(a: Word, b: Word) -> Word
    requires { AreOperands Op.Sub a b }
    ensures { result ≡ apply Op.Sub a b }
{
    let width = a.width;
    let value = low(
        u128::from(a.value) + (1u128 << width) - u128::from(b.value),
        width,
    );
    Word { width, value }
}

fn product(a: Word, b: Word) -> Word
    requires { AreOperands Op.Mul a b }
    ensures { result ≡ apply Op.Mul a b }
{
    let width = a.width;
    let value = low(u128::from(a.value) * u128::from(b.value), width);
    Word { width, value }
}

fn shifted_left(a: Word, b: Word) -> Word
    requires { AreOperands Op.ShiftLeft a b }
    ensures { result ≡ apply Op.ShiftLeft a b }
{
    let width = a.width;
    let mut value = 0;
    if b.value < u64::from(width) {
        value = low(u128::from(a.value) * (1u128 << b.value), width);
    }
    Word { width, value }
}

fn shifted_right(a: Word, b: Word) -> Word
    requires { AreOperands Op.ShiftRight a b }
    ensures { result ≡ apply Op.ShiftRight a b }
{
    let width = a.width;
    let mut value = 0;
    if b.value < u64::from(width) {
        value = a.value >> b.value;
    }
    Word { width, value }
}

/// An operator between two operands.
pub fn apply(op: Op, a: Word, b: Word) -> Word
    requires { AreOperands op a b }
    ensures { result ≡ apply op a b }
{
    let width = a.width;
    match op {
        Op::Add => sum(a, b),
        Op::Sub => difference(a, b),
        Op::Mul => product(a, b),
        Op::And => {
            let value = a.value & b.value;
            Word { width, value }
        }
        Op::Or => {
            let value = a.value | b.value;
            Word { width, value }
        }
        Op::Xor => {
            let value = a.value ^ b.value;
            Word { width, value }
        }
        Op::ShiftLeft => shifted_left(a, b),
        Op::ShiftRight => shifted_right(a, b),
        Op::Equal => bit(a.value == b.value),
        Op::NotEqual => bit(a.value != b.value),
        Op::Less => bit(a.value < b.value),
        Op::LessEqual => bit(a.value <= b.value),
        Op::Greater => bit(b.value < a.value),
        Op::GreaterEqual => bit(b.value <= a.value),
    }
}

/// An operator before its operand.
pub fn apply_unary(unary_op: UnaryOp, a: Word) -> Word
    requires { Fits a }
    ensures { result ≡ apply_unary unary_op a }
{
    let width = a.width;
    match unary_op {
        UnaryOp::Not => {
            let value = ((1u128 << width) - 1 - u128::from(a.value)) as u64;
            Word { width, value }
        }
        UnaryOp::ReduceOr => bit(a.value != 0),
    }
}

/// The bits of a word from a high one down to a low one.
pub fn part_select(word: Word, high: u8, low_bit: u8) -> Word
    requires { IsSelected word high low_bit }
    ensures { result ≡ part_select word high low_bit }
{
    let width = high + 1 - low_bit;
    let value = low(u128::from(word.value >> low_bit), width);
    Word { width, value }
}

// A power of two.
fn power(exponent: u8) -> u64
    requires { exponent < 64 }
    ensures { result ≡ 2 ^ exponent }
{
    1u64 << exponent
}

/// One word before another.
#[tactic(auto, using(crate::proofs::Operands::joined_small, crate::proofs::Operands::joined_room))]
pub fn concatenated(a: Word, b: Word) -> Word
    requires { AreJoined a b }
    ensures { result ≡ concatenated a b }
{
    let width = a.width + b.width;
    let value = a.value * power(b.width) + b.value;
    Word { width, value }
}
