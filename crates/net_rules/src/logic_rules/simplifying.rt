//! Expressions from their leaves up.

ghost use Rattle.std.specs.Prelude.{◌≡◌, IfOk, IfSome};
ghost use Rattle.net_core.specs.declared.tree.Net.{Net};
ghost use Rattle.net_core.specs.declared.tree.Word.{Word};
ghost use Rattle.net_core.specs.View.{tree_of, trees_of};
ghost use Rattle.net_core.specs.Value.{Env, value, apply, concatenated_parts};
ghost use Rattle.net_rules.specs.NetSizes.Fitting.{AreFitting, sizes_of};
ghost use Rattle.net_rules.specs.LogicRules.Known.{AreKnown};
ghost use Rattle.net_rules.specs.LogicRules.Made.{made_value};

use crate::building::{concatenation_of, memory_word_of};
use crate::logic_rules::choosing::chosen;
use crate::logic_rules::comparing::compared;
use crate::logic_rules::joining::{both, either};
use crate::logic_rules::made::{Made, built};
use crate::logic_rules::neutral::with_constant;
use crate::logic_rules::prefixing::prefixed;
use crate::logic_rules::selecting::selected;
use crate::logic_rules::testing::{tested, tests};
use crate::logic_rules::views::constant_of;
use crate::net_sizes::Sizes;
use net_core::build::{self, binary};
use net_core::tree::{Expr, Net, Op, Parts};
use std::alloc::{AllocError, Global};

// An operator between two operands, with fewer operators.
fn rule<'a>(sizes: &Sizes, op: Op, a: &'a Expr<Net>, b: &'a Expr<Net>) -> Option<Made<'a>>
    ensures { IfSome result (λ m. (v : Env Net) → AreFitting (sizes_of sizes.now) v → made_value v m ≡ apply op (value v (tree_of a.now)) (value v (tree_of b.now))) }
{
    if let Some(shorter) = with_constant(sizes, op, a, b) {
        return Some(shorter);
    }
    if let Some(shorter) = compared(sizes, op, a, b) {
        return Some(shorter);
    }
    match op {
        Op::And => both(sizes, a, b),
        Op::Or => either(sizes, a, b),
        _ => None,
    }
}

// An operator between two operands.
fn joined(
    alloc: Global,
    sizes: &Sizes,
    op: Op,
    a: Result<Expr<Net>, AllocError>,
    b: Result<Expr<Net>, AllocError>,
) -> Result<Expr<Net>, AllocError>
    ensures { (v : Env Net) (x y : Word) → AreFitting (sizes_of sizes.now) v → IfOk a (λ e. value v (tree_of e) ≡ x) → IfOk b (λ e. value v (tree_of e) ≡ y) → IfOk result (λ r. value v (tree_of r) ≡ apply op x y) }
{
    let a = a?;
    let b = b?;
    if let Some(shorter) = rule(sizes, op, &a, &b) {
        return built(alloc, shorter);
    }
    if let Some(word) = constant_of(&b)
        && tests(op, &a)
    {
        return tested(alloc, sizes, op, &a, word);
    }
    binary(alloc, op, a, b)
}

// An expression of the same value.
#[cycle(expressions)]
fn simple(
    alloc: Global,
    sizes: &Sizes,
    known: &[Option<Expr<Net>>],
    e: &Expr<Net>,
) -> Result<Expr<Net>, AllocError>
    ensures { (v : Env Net) → AreFitting (sizes_of sizes.now) v → AreKnown v known.now → IfOk result (λ r. value v (tree_of r) ≡ value v (tree_of e.now)) }
{
    match e {
        Expr::Const(word) => Ok(Expr::Const(*word)),
        Expr::Read(n) => Ok(Expr::Read(*n)),
        Expr::Bit(n, bit) => Ok(selected(sizes, known, *n, *bit, *bit)),
        Expr::PartSelect(n, high, low) => Ok(selected(sizes, known, *n, *high, *low)),
        Expr::MemoryWord(m, i) => memory_word_of(alloc, *m, simple(alloc, sizes, known, i)),
        Expr::Unary(op, a) => prefixed(alloc, sizes, *op, simple(alloc, sizes, known, a), a),
        Expr::Binary(op, a, b) => {
            let a = simple(alloc, sizes, known, a);
            joined(alloc, sizes, *op, a, simple(alloc, sizes, known, b))
        }
        Expr::Conditional(c, a, b) => {
            let c = simple(alloc, sizes, known, c);
            let a = simple(alloc, sizes, known, a);
            chosen(alloc, sizes, c, a, simple(alloc, sizes, known, b))
        }
        Expr::Concatenation(parts) => {
            concatenation_of(alloc, simple_parts(alloc, sizes, known, parts))
        }
    }
}

// Without a recursion over the parts: there may be any number.
#[cycle(expressions)]
fn simple_parts(
    alloc: Global,
    sizes: &Sizes,
    known: &[Option<Expr<Net>>],
    parts: &Parts<Net>,
) -> Result<Parts<Net>, AllocError>
    ensures { (v : Env Net) → AreFitting (sizes_of sizes.now) v → AreKnown v known.now → IfOk result (λ r. concatenated_parts v (trees_of r) ≡ concatenated_parts v (trees_of parts.now)) }
{
    let mut prefix = Vec::new(alloc);
    let mut left = parts;
    while let Parts::More(part, more) = left {
        prefix.push(simple(alloc, sizes, known, part)?)?;
        left = more;
    }
    match left {
        Parts::Last(last) => {
            let last = simple(alloc, sizes, known, last)?;
            let whole = build::parts(alloc, prefix, last)?;
            Ok(whole)
        }
        Parts::More(..) => unreachable!(),
    }
}

/// An expression of the same value, where nets hold words of their sizes, and wires the values of what is known of them.
pub fn simplified(
    alloc: Global,
    sizes: &Sizes,
    known: &[Option<Expr<Net>>],
    e: &Expr<Net>,
) -> Result<Expr<Net>, AllocError>
    ensures { IfOk result (λ r. (v : Env Net) → AreFitting (sizes_of sizes.now) v → AreKnown v known.now → value v (tree_of r) ≡ value v (tree_of e.now)) }
{
    let whole = simple(alloc, sizes, known, e)?;
    Ok(whole)
}
