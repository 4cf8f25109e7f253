//! Operators between an operand and a constant that leaves its bits, or decides them.

ghost use Rattle.std.specs.Prelude.{◌≡◌, true, IfSome, ◌-◌, ◌^◌};
ghost use Rattle.net_core.specs.declared.tree.Net.{Net};
ghost use Rattle.net_core.specs.declared.tree.Word as words;
ghost use Rattle.net_core.specs.View.{tree_of};
ghost use Rattle.net_core.specs.Value.{Env, value, apply};
ghost use Rattle.net_rules.specs.NetSizes.Fitting.{AreFitting, Fits, sizes_of};
ghost use Rattle.net_rules.specs.LogicRules.Made.{made_value};

use crate::logic_rules::made::{Leaf, Made};
use crate::logic_rules::views::constant_of;
use crate::net_sizes::{Sizes, expr_size};
use net_core::tree::{Expr, Net, Op, Word};

/// How many bits a constant has at most.
const MOST_BITS: u8 = 64;

// Whether each bit of a word of some bits is 1.
fn is_ones(word: Word) -> bool
    ensures { result ≡ true → word.value ≡ 2 ^ word.width - 1 }
{
    if word.width == 0 || word.width > MOST_BITS {
        return false;
    }
    word.value == u64::MAX >> u32::from(MOST_BITS - word.width)
}

// Whether a constant after an operand of so many bits leaves it as it is.
fn leaves_first(op: Op, size: u8, word: Word) -> bool
    ensures { result ≡ true → (a : words.Word) → Fits size a → apply op a word ≡ a }
{
    match op {
        Op::Or | Op::Xor => word.value == 0,
        Op::Add | Op::Sub => size > 0 && word.value == 0,
        Op::And => size > 0 && word.width == size && is_ones(word),
        _ => false,
    }
}

// Whether a constant before an operand of so many bits leaves it as it is.
fn leaves_second(op: Op, word: Word, size: u8) -> bool
    ensures { result ≡ true → (b : words.Word) → Fits size b → apply op word b ≡ b }
{
    if size == 0 || word.width != size {
        return false;
    }
    match op {
        Op::Or | Op::Xor | Op::Add => word.value == 0,
        Op::And => is_ones(word),
        _ => false,
    }
}

// What any operand of so many bits gives with a constant after it.
fn decided_behind(op: Op, size: u8, word: Word) -> Option<Word>
    ensures { IfSome result (λ w. (a : words.Word) → Fits size a → apply op a word ≡ w) }
{
    match op {
        Op::And if size > 0 && word.value == 0 => Some(Word {
            width: size,
            value: 0,
        }),
        Op::Or if size == 1 && word.value == 1 => Some(Word { width: 1, value: 1 }),
        _ => None,
    }
}

// What any operand of so many bits gives with a constant before it.
fn decided_before(op: Op, word: Word, size: u8) -> Option<Word>
    ensures { IfSome result (λ w. (b : words.Word) → Fits size b → apply op word b ≡ w) }
{
    match op {
        Op::And if word.value == 0 => Some(word),
        Op::Or if size == 1 && word.width == 1 && word.value == 1 => Some(word),
        _ => None,
    }
}

// An operand and a constant after it.
fn before_constant<'a>(sizes: &Sizes, op: Op, a: &'a Expr<Net>, word: Word) -> Option<Made<'a>>
    ensures { IfSome result (λ m. (v : Env Net) → AreFitting (sizes_of sizes.now) v → made_value v m ≡ apply op (value v (tree_of a.now)) word) }
{
    let size = expr_size(sizes, a);
    if leaves_first(op, size, word) {
        return Some(Made::Same(Leaf::Part(a)));
    }
    match decided_behind(op, size, word) {
        Some(whole) => Some(Made::Same(Leaf::Constant(whole))),
        None => None,
    }
}

// An operand and a constant before it.
fn behind_constant<'a>(sizes: &Sizes, op: Op, word: Word, b: &'a Expr<Net>) -> Option<Made<'a>>
    ensures { IfSome result (λ m. (v : Env Net) → AreFitting (sizes_of sizes.now) v → made_value v m ≡ apply op word (value v (tree_of b.now))) }
{
    let size = expr_size(sizes, b);
    if leaves_second(op, word, size) {
        return Some(Made::Same(Leaf::Part(b)));
    }
    match decided_before(op, word, size) {
        Some(whole) => Some(Made::Same(Leaf::Constant(whole))),
        None => None,
    }
}

/// An operator that has a constant on a side, as one of the sides or a constant, if it is one.
pub(crate) fn with_constant<'a>(
    sizes: &Sizes,
    op: Op,
    a: &'a Expr<Net>,
    b: &'a Expr<Net>,
) -> Option<Made<'a>>
    ensures { IfSome result (λ m. (v : Env Net) → AreFitting (sizes_of sizes.now) v → made_value v m ≡ apply op (value v (tree_of a.now)) (value v (tree_of b.now))) }
{
    if let Some(word) = constant_of(b) {
        return before_constant(sizes, op, a, word);
    }
    if let Some(word) = constant_of(a) {
        return behind_constant(sizes, op, word, b);
    }
    None
}
