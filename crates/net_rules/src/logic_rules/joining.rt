//! Single bits that hold together, or of which one holds.

ghost use Rattle.std.specs.Prelude.{◌≡◌, IfSome};
ghost use Rattle.net_core.specs.declared.tree.Net.{Net};
ghost use Rattle.net_core.specs.declared.tree.Op.TheVariants as infixed;
ghost use Rattle.net_core.specs.View.{tree_of};
ghost use Rattle.net_core.specs.Value.{Env, value, apply};
ghost use Rattle.net_rules.specs.NetSizes.Fitting.{AreFitting, sizes_of};
ghost use Rattle.net_rules.specs.LogicRules.Made.{made_value};

use crate::logic_rules::flags::is_flag;
use crate::logic_rules::made::{Leaf, Made};
use crate::logic_rules::views::{bit_word, turned_by};
use crate::net_sizes::Sizes;
use net_core::tree::{Expr, Net, Op};

// Two negations that hold together.
fn neither<'a>(sizes: &Sizes, a: &'a Expr<Net>, b: &'a Expr<Net>) -> Option<Made<'a>>
    ensures { IfSome result (λ m. (v : Env Net) → AreFitting (sizes_of sizes.now) v → made_value v m ≡ apply infixed.And (value v (tree_of a.now)) (value v (tree_of b.now))) }
{
    if let Some(x) = turned_by(a)
        && let Some(y) = turned_by(b)
        && is_flag(sizes, x)
        && is_flag(sizes, y)
    {
        return Some(Made::NotInfixed(Op::Or, Leaf::Part(x), Leaf::Part(y)));
    }
    None
}

// Two negations of which one holds.
fn not_both<'a>(sizes: &Sizes, a: &'a Expr<Net>, b: &'a Expr<Net>) -> Option<Made<'a>>
    ensures { IfSome result (λ m. (v : Env Net) → AreFitting (sizes_of sizes.now) v → made_value v m ≡ apply infixed.Or (value v (tree_of a.now)) (value v (tree_of b.now))) }
{
    if let Some(x) = turned_by(a)
        && let Some(y) = turned_by(b)
        && is_flag(sizes, x)
        && is_flag(sizes, y)
    {
        return Some(Made::NotInfixed(Op::And, Leaf::Part(x), Leaf::Part(y)));
    }
    None
}

// A bit where another one is 0.
#[tactic(auto, using(crate::proofs::LogicRules::FlagLemmas::where_clear))]
fn where_clear<'a>(sizes: &Sizes, a: &'a Expr<Net>, b: &'a Expr<Net>) -> Option<Made<'a>>
    ensures behind { IfSome result (λ m. (v : Env Net) → AreFitting (sizes_of sizes.now) v → made_value v m ≡ apply infixed.And (value v (tree_of a.now)) (value v (tree_of b.now))) }
    ensures before { IfSome result (λ m. (v : Env Net) → AreFitting (sizes_of sizes.now) v → made_value v m ≡ apply infixed.And (value v (tree_of b.now)) (value v (tree_of a.now))) }
{
    if let Some(c) = turned_by(b)
        && is_flag(sizes, c)
        && is_flag(sizes, a)
    {
        let zero = Leaf::Constant(bit_word(false));
        return Some(Made::Chosen(Leaf::Part(c), zero, Leaf::Part(a)));
    }
    None
}

// A bit where another one is 1, else 1.
#[tactic(auto, using(crate::proofs::LogicRules::FlagLemmas::where_set, crate::proofs::LogicRules::FlagLemmas::where_set_before))]
fn where_set<'a>(sizes: &Sizes, a: &'a Expr<Net>, b: &'a Expr<Net>) -> Option<Made<'a>>
    ensures behind { IfSome result (λ m. (v : Env Net) → AreFitting (sizes_of sizes.now) v → made_value v m ≡ apply infixed.Or (value v (tree_of a.now)) (value v (tree_of b.now))) }
    ensures before { IfSome result (λ m. (v : Env Net) → AreFitting (sizes_of sizes.now) v → made_value v m ≡ apply infixed.Or (value v (tree_of b.now)) (value v (tree_of a.now))) }
{
    if let Some(c) = turned_by(b)
        && is_flag(sizes, c)
        && is_flag(sizes, a)
    {
        let one = Leaf::Constant(bit_word(true));
        return Some(Made::Chosen(Leaf::Part(c), Leaf::Part(a), one));
    }
    None
}

/// Two operands joined by and, with fewer operators.
pub(crate) fn both<'a>(sizes: &Sizes, a: &'a Expr<Net>, b: &'a Expr<Net>) -> Option<Made<'a>>
    ensures { IfSome result (λ m. (v : Env Net) → AreFitting (sizes_of sizes.now) v → made_value v m ≡ apply infixed.And (value v (tree_of a.now)) (value v (tree_of b.now))) }
{
    if let Some(shorter) = neither(sizes, a, b) {
        return Some(shorter);
    }
    if let Some(shorter) = where_clear(sizes, a, b) {
        return Some(shorter);
    }
    where_clear(sizes, b, a)
}

/// Two operands joined by or, with fewer operators.
pub(crate) fn either<'a>(sizes: &Sizes, a: &'a Expr<Net>, b: &'a Expr<Net>) -> Option<Made<'a>>
    ensures { IfSome result (λ m. (v : Env Net) → AreFitting (sizes_of sizes.now) v → made_value v m ≡ apply infixed.Or (value v (tree_of a.now)) (value v (tree_of b.now))) }
{
    if let Some(shorter) = not_both(sizes, a, b) {
        return Some(shorter);
    }
    if let Some(shorter) = where_set(sizes, a, b) {
        return Some(shorter);
    }
    where_set(sizes, b, a)
}
