//! The rules of widths (IEEE 1364-2005, 5.4, for operands of one width): a width of 0 says that there is none.

ghost use Rattle.std.specs.Prelude.{◌≡◌, ◌^◌, ◌≤◌, nat_lt};
ghost use Rattle.net_core.specs.Width as width;

use crate::tree::{Op, UnaryOp, Word};

/// Whether a number fits its width.
fn is_small(w: Word) -> bool
    requires { w.width ≤ 64 }
    ensures { result ≡ nat_lt w.value (2 ^ w.width) }
{
    u128::from(w.value) < 1u128 << w.width
}

/// Whether a number fits its width, which is of 1 to 64 bits.
pub fn word_fits(w: Word) -> bool
    ensures { result ≡ width.word_fits w }
{
    w.width > 0 && w.width <= 64 && is_small(w)
}

/// The width of a constant, or 0.
pub fn const_width(w: Word) -> u8
    ensures { result ≡ width.const_width w }
{
    if w.width <= 64 && is_small(w) {
        w.width
    } else {
        0
    }
}

/// The width of both sides, or 0 where theirs differ.
pub fn same_width(a: u8, b: u8) -> u8
    ensures { result ≡ width.same_width a b }
{
    if a == b { a } else { 0 }
}

/// The width of a comparison of two sides, or 0.
fn test_width(a: u8, b: u8) -> u8
    ensures { result ≡ width.test_width a b }
{
    if a > 0 && a == b { 1 } else { 0 }
}

/// The width of an operator between operands of these widths, or 0.
pub fn op_width(op: Op, a: u8, b: u8) -> u8
    ensures { result ≡ width.op_width op a b }
{
    match op {
        Op::Add | Op::Sub | Op::Mul | Op::And | Op::Or | Op::Xor => same_width(a, b),
        Op::ShiftLeft | Op::ShiftRight => { if b > 0 { a } else { 0 } }
        Op::Equal | Op::NotEqual | Op::Less | Op::LessEqual | Op::Greater | Op::GreaterEqual => {
            test_width(a, b)
        }
    }
}

/// The width of an operator before an operand of this width, or 0.
pub fn unary_width(unary_op: UnaryOp, a: u8) -> u8
    ensures { result ≡ width.unary_width unary_op a }
{
    match unary_op {
        UnaryOp::Not => a,
        UnaryOp::ReduceOr => { if a > 0 { 1 } else { 0 } }
    }
}

/// The width of the bits of a net of `w` bits from `high` down to `low`, or 0: a net of one bit has no selects.
pub fn part_select_width(w: u8, high: u8, low: u8) -> u8
    ensures { result ≡ width.part_select_width w high low }
{
    if w >= 2 && low <= high && high < w {
        high + 1 - low
    } else {
        0
    }
}

/// The width of a word of `memory_word` bits at an index of `i` bits, in a memory whose index has `index` bits, or 0.
pub fn memory_word_width(i: u8, index: u8, memory_word: u8) -> u8
    ensures { result ≡ width.memory_word_width i index memory_word }
{
    if i > 0 && i == index { memory_word } else { 0 }
}

/// The width of a choice by a condition of `c` bits between two values, or 0.
pub fn conditional_width(c: u8, a: u8, b: u8) -> u8
    ensures { result ≡ width.conditional_width c a b }
{
    if c == 1 && a == b { a } else { 0 }
}

/// The width of one part in front of others, or 0: together they have 64 bits at most.
pub fn concatenation_width(a: u8, b: u8) -> u8
    ensures { result ≡ width.concatenation_width a b }
{
    if a > 0 && b > 0 && u16::from(a) + u16::from(b) <= 64 {
        a + b
    } else {
        0
    }
}

/// Whether two sides have one width.
pub fn same(a: u8, b: u8) -> bool
    ensures { result ≡ width.same a b }
{
    a > 0 && a == b
}
