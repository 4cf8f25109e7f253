//! Choices between two expressions.

ghost use Rattle.std.specs.Prelude.{◌≡◌, IfOk, IfSome};
ghost use Rattle.net_core.specs.declared.tree.Net.{Net};
ghost use Rattle.net_core.specs.declared.tree.Word.{Word};
ghost use Rattle.net_core.specs.declared.tree.Op.TheVariants as infixed;
ghost use Rattle.net_core.specs.View.{tree_of};
ghost use Rattle.net_core.specs.Value as net;
ghost use Rattle.net_core.specs.Value.{Env, value};
ghost use Rattle.net_rules.specs.NetSizes.Fitting.{AreFitting, sizes_of};
ghost use Rattle.net_rules.specs.LogicRules.Made.{made_value, choice_value};

use crate::building::conditional_of;
use crate::logic_rules::flags::is_flag;
use crate::logic_rules::joining::{both, either};
use crate::logic_rules::made::{Leaf, Made, built};
use crate::logic_rules::settling::{where_false, where_true};
use crate::logic_rules::turning::turned;
use crate::logic_rules::views::{bit_of, constant_of, turned_by};
use crate::net_sizes::Sizes;
use net_core::build::conditional;
use net_core::net_trees::copying::copied;
use net_core::net_trees::equal::is_same;
use net_core::tree::{Expr, Net, Op};
use std::alloc::{AllocError, Global};

/// What stands for a choice.
#[derive(Clone, Copy)]
pub(crate) enum Choice<'a> {
    Whole(Made<'a>),
    /// The first expression where the condition is 1, else the second.
    Under(Made<'a>, &'a Expr<Net>, &'a Expr<Net>),
}

// A choice between 1 and another bit.
fn bit_or_other<'a>(
    sizes: &Sizes,
    c: &'a Expr<Net>,
    a: &'a Expr<Net>,
    b: &'a Expr<Net>,
) -> Option<Made<'a>>
    ensures { IfSome result (λ m. (v : Env Net) → AreFitting (sizes_of sizes.now) v → made_value v m ≡ net.conditional (value v (tree_of c.now)) (value v (tree_of a.now)) (value v (tree_of b.now))) }
{
    if let Some(true) = bit_of(a)
        && is_flag(sizes, c)
        && is_flag(sizes, b)
    {
        if let Some(shorter) = either(sizes, c, b) {
            return Some(shorter);
        }
        return Some(Made::Infixed(Op::Or, Leaf::Part(c), Leaf::Part(b)));
    }
    None
}

// A choice between a bit and 0.
fn bit_or_none<'a>(
    sizes: &Sizes,
    c: &'a Expr<Net>,
    a: &'a Expr<Net>,
    b: &'a Expr<Net>,
) -> Option<Made<'a>>
    ensures { IfSome result (λ m. (v : Env Net) → AreFitting (sizes_of sizes.now) v → made_value v m ≡ net.conditional (value v (tree_of c.now)) (value v (tree_of a.now)) (value v (tree_of b.now))) }
{
    if let Some(false) = bit_of(b)
        && is_flag(sizes, c)
        && is_flag(sizes, a)
    {
        if let Some(shorter) = both(sizes, c, a) {
            return Some(shorter);
        }
        return Some(Made::Infixed(Op::And, Leaf::Part(c), Leaf::Part(a)));
    }
    None
}

// A choice between 1 and 0.
#[tactic(auto, using(crate::proofs::LogicRules::FlagLemmas::itself))]
fn condition_itself<'a>(
    sizes: &Sizes,
    c: &'a Expr<Net>,
    a: &'a Expr<Net>,
    b: &'a Expr<Net>,
) -> Option<Made<'a>>
    ensures { IfSome result (λ m. (v : Env Net) → AreFitting (sizes_of sizes.now) v → made_value v m ≡ net.conditional (value v (tree_of c.now)) (value v (tree_of a.now)) (value v (tree_of b.now))) }
{
    if let Some(true) = bit_of(a)
        && let Some(false) = bit_of(b)
        && is_flag(sizes, c)
    {
        return Some(Made::Same(Leaf::Part(c)));
    }
    None
}

// A choice between 0 and 1.
fn condition_turned<'a>(
    sizes: &Sizes,
    c: &'a Expr<Net>,
    a: &'a Expr<Net>,
    b: &'a Expr<Net>,
) -> Option<Made<'a>>
    ensures { IfSome result (λ m. (v : Env Net) → AreFitting (sizes_of sizes.now) v → made_value v m ≡ net.conditional (value v (tree_of c.now)) (value v (tree_of a.now)) (value v (tree_of b.now))) }
{
    if let Some(false) = bit_of(a)
        && let Some(true) = bit_of(b)
        && is_flag(sizes, c)
        && let Some(whole) = turned(sizes, c)
    {
        return Some(whole);
    }
    None
}

// A choice between a bit and its negation.
fn crossed<'a>(
    sizes: &Sizes,
    c: &'a Expr<Net>,
    a: &'a Expr<Net>,
    b: &'a Expr<Net>,
) -> Option<Made<'a>>
    ensures { IfSome result (λ m. (v : Env Net) → AreFitting (sizes_of sizes.now) v → made_value v m ≡ net.conditional (value v (tree_of c.now)) (value v (tree_of a.now)) (value v (tree_of b.now))) }
{
    if let Some(x) = turned_by(a)
        && is_same(x, b)
        && is_flag(sizes, c)
        && is_flag(sizes, b)
    {
        return Some(Made::Infixed(Op::Xor, Leaf::Part(c), Leaf::Part(b)));
    }
    None
}

// A choice between bits of which one is a constant, or the other one's negation.
fn of_bits<'a>(
    sizes: &Sizes,
    c: &'a Expr<Net>,
    a: &'a Expr<Net>,
    b: &'a Expr<Net>,
) -> Option<Made<'a>>
    ensures { IfSome result (λ m. (v : Env Net) → AreFitting (sizes_of sizes.now) v → made_value v m ≡ net.conditional (value v (tree_of c.now)) (value v (tree_of a.now)) (value v (tree_of b.now))) }
{
    if let Some(shorter) = condition_itself(sizes, c, a, b) {
        return Some(shorter);
    }
    if let Some(shorter) = condition_turned(sizes, c, a, b) {
        return Some(shorter);
    }
    if let Some(shorter) = bit_or_other(sizes, c, a, b) {
        return Some(shorter);
    }
    if let Some(shorter) = bit_or_none(sizes, c, a, b) {
        return Some(shorter);
    }
    crossed(sizes, c, a, b)
}

// Two single bits that hold together.
fn joined<'a>(sizes: &Sizes, c: &'a Expr<Net>, d: &'a Expr<Net>) -> Made<'a>
    ensures { (v : Env Net) → AreFitting (sizes_of sizes.now) v → made_value v result ≡ net.apply infixed.And (value v (tree_of c.now)) (value v (tree_of d.now)) }
{
    if let Some(shorter) = both(sizes, c, d) {
        return shorter;
    }
    Made::Infixed(Op::And, Leaf::Part(c), Leaf::Part(d))
}

// A choice by a condition that is no negation. A choice in a choice between the same is one.
fn chosen_plainly<'a>(
    sizes: &Sizes,
    c: &'a Expr<Net>,
    a: &'a Expr<Net>,
    b: &'a Expr<Net>,
) -> Option<Choice<'a>>
    ensures { IfSome result (λ m. (v : Env Net) → AreFitting (sizes_of sizes.now) v → choice_value v m ≡ net.conditional (value v (tree_of c.now)) (value v (tree_of a.now)) (value v (tree_of b.now))) }
{
    if let Some(shorter) = of_bits(sizes, c, a, b) {
        return Some(Choice::Whole(shorter));
    }
    if let Expr::Conditional(d, x, z) = a
        && is_same(z, b)
        && is_flag(sizes, c)
        && is_flag(sizes, d)
    {
        return Some(Choice::Under(joined(sizes, c, d), x, z));
    }
    None
}

// A choice between two expressions, with fewer operators.
fn shorter_choice<'a>(
    sizes: &Sizes,
    c: &'a Expr<Net>,
    a: &'a Expr<Net>,
    b: &'a Expr<Net>,
) -> Option<Choice<'a>>
    ensures { IfSome result (λ m. (v : Env Net) → AreFitting (sizes_of sizes.now) v → choice_value v m ≡ net.conditional (value v (tree_of c.now)) (value v (tree_of a.now)) (value v (tree_of b.now))) }
{
    if let Some(word) = constant_of(c) {
        let taken = if word.value == 0 { b } else { a };
        return Some(Choice::Whole(Made::Same(Leaf::Part(taken))));
    }
    if is_same(a, b) {
        return Some(Choice::Whole(Made::Same(Leaf::Part(a))));
    }
    if let Some(d) = turned_by(c)
        && is_flag(sizes, d)
    {
        if let Some(shorter) = chosen_plainly(sizes, d, b, a) {
            return Some(shorter);
        }
        let whole = Made::Chosen(Leaf::Part(d), Leaf::Part(b), Leaf::Part(a));
        return Some(Choice::Whole(whole));
    }
    chosen_plainly(sizes, c, a, b)
}

// The expression of a choice.
fn choice_built(alloc: Global, choice: Choice) -> Result<Expr<Net>, AllocError>
    ensures { (v : Env Net) → IfOk result (λ r. value v (tree_of r) ≡ choice_value v choice.entry) }
{
    match choice {
        Choice::Whole(made) => built(alloc, made),
        Choice::Under(c, a, b) => {
            let c = built(alloc, c);
            let a = copied(alloc, a);
            conditional_of(alloc, c, a, copied(alloc, b))
        }
    }
}

// The first of two expressions where the condition is 1, else the second.
fn chosen_of_all(
    alloc: Global,
    sizes: &Sizes,
    c: Expr<Net>,
    a: Expr<Net>,
    b: Expr<Net>,
) -> Result<Expr<Net>, AllocError>
    ensures { (v : Env Net) → AreFitting (sizes_of sizes.now) v → IfOk result (λ r. value v (tree_of r) ≡ net.conditional (value v (tree_of c)) (value v (tree_of a)) (value v (tree_of b))) }
{
    if let Some(shorter) = shorter_choice(sizes, &c, &a, &b) {
        return choice_built(alloc, shorter);
    }
    conditional(alloc, c, a, b)
}

/// The first of two expressions where the condition is 1, else the second.
pub(crate) fn chosen(
    alloc: Global,
    sizes: &Sizes,
    c: Result<Expr<Net>, AllocError>,
    a: Result<Expr<Net>, AllocError>,
    b: Result<Expr<Net>, AllocError>,
) -> Result<Expr<Net>, AllocError>
    ensures { (v : Env Net) (x y z : Word) → AreFitting (sizes_of sizes.now) v → IfOk c (λ e. value v (tree_of e) ≡ x) → IfOk a (λ e. value v (tree_of e) ≡ y) → IfOk b (λ e. value v (tree_of e) ≡ z) → IfOk result (λ r. value v (tree_of r) ≡ net.conditional x y z) }
{
    let c = c?;
    let a = where_true(sizes, &c, a?);
    let b = where_false(sizes, &c, b?);
    chosen_of_all(alloc, sizes, c, a, b)
}
