//! How many bits the words of expressions have.

ghost use Rattle.std.specs.Prelude.{◌≡◌, ◌+◌, ◌<◌};
ghost use Rattle.net_core.specs.declared.tree.Word.{Word};
ghost use Rattle.net_core.specs.declared.tree.Net.{Net};
ghost use Rattle.net_core.specs.View.{tree_of, trees_of};
ghost use Rattle.net_core.specs.Value.{Env, value, concatenated_parts, apply, part_select};
ghost use Rattle.net_rules.specs.NetSizes.Fitting.{AreFitting, Fits, sizes_of};

use crate::net_sizes::sizes::Sizes;
use net_core::tree::{Expr, Net, Op, Parts, UnaryOp};
use net_core::width::const_width;

// The size of two words of one size.
fn common(a: u8, b: u8) -> u8
    ensures left { 0 < result → result ≡ a }
    ensures right { 0 < result → result ≡ b }
{
    if a == b { a } else { 0 }
}

// The size of one word before another, where both are known.
fn joined(a: u8, b: u8) -> u8
    ensures known { 0 < result → 0 < b }
    ensures sum { 0 < result → result ≡ a + b }
{
    if b > 0 && b <= u8::MAX - a { a + b } else { 0 }
}

fn select_size(high: u8, low: u8) -> u8
    ensures { (w : Word) → Fits result (part_select w high low) }
{
    if low <= high && high < u8::MAX {
        high + 1 - low
    } else {
        0
    }
}

// What an operator makes of words of these sizes.
fn binary_size(op: Op, a: u8, b: u8) -> u8
    ensures { (x y : Word) → Fits a x → Fits b y → Fits result (apply op x y) }
{
    match op {
        Op::Or | Op::Xor => common(a, b),
        Op::Equal | Op::NotEqual | Op::Less | Op::LessEqual | Op::Greater | Op::GreaterEqual => 1,
        Op::Add | Op::Sub | Op::Mul | Op::And | Op::ShiftLeft | Op::ShiftRight => a,
    }
}

/// How many bits the word of an expression has, which then fits them, where nets hold words of their sizes. 0 where it is not known.
#[cycle(expressions)]
pub fn expr_size(sizes: &Sizes, e: &Expr<Net>) -> u8
    ensures { (v : Env Net) → AreFitting (sizes_of sizes.now) v → Fits result (value v (tree_of e.now)) }
{
    match e {
        Expr::Const(word) => const_width(*word),
        Expr::Read(n) => sizes.of(*n),
        Expr::Bit(..) => 1,
        Expr::PartSelect(_, high, low) => select_size(*high, *low),
        Expr::MemoryWord(..) => 0,
        Expr::Unary(UnaryOp::Not, a) => expr_size(sizes, a),
        Expr::Unary(UnaryOp::ReduceOr, _) => 1,
        Expr::Binary(op, a, b) => binary_size(*op, expr_size(sizes, a), expr_size(sizes, b)),
        Expr::Conditional(_, a, b) => common(expr_size(sizes, a), expr_size(sizes, b)),
        Expr::Concatenation(parts) => parts_size(sizes, parts),
    }
}

/// How many bits the word of a concatenation has, which then fits them, where nets hold words of their sizes. 0 where it is not known.
// Without a recursion over the parts: there may be any number.
#[cycle(expressions)]
pub(crate) fn parts_size(sizes: &Sizes, parts: &Parts<Net>) -> u8
    ensures { (v : Env Net) → AreFitting (sizes_of sizes.now) v → Fits result (concatenated_parts v (trees_of parts.now)) }
{
    let mut sum = 0;
    let mut left = parts;
    loop {
        match left {
            Parts::Last(a) => return joined(sum, expr_size(sizes, a)),
            Parts::More(a, more) => {
                sum = joined(sum, expr_size(sizes, a));
                if sum == 0 {
                    return 0;
                }
                left = more;
            }
        }
    }
}
