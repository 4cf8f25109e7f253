//! What an expression is where a condition holds, or where it does not.

ghost use Rattle.std.specs.Prelude.{◌≡◌};
ghost use Rattle.net_core.specs.declared.tree.Net.{Net};
ghost use Rattle.net_core.specs.declared.tree.Word.{Word};
ghost use Rattle.net_core.specs.View.{tree_of};
ghost use Rattle.net_core.specs.Value as net;
ghost use Rattle.net_core.specs.Value.{Env, value};
ghost use Rattle.net_rules.specs.NetSizes.Fitting.{AreFitting, sizes_of};

use crate::logic_rules::flags::is_flag;
use crate::logic_rules::views::constant_bit;
use crate::net_sizes::Sizes;
use net_core::net_trees::equal::is_same;
use net_core::tree::{Expr, Net};

/// What is chosen where a condition is 1: 1 in place of the condition itself.
#[tactic(auto, using(crate::proofs::LogicRules::FlagLemmas::itself_where_set))]
pub(crate) fn where_true(sizes: &Sizes, c: &Expr<Net>, a: Expr<Net>) -> Expr<Net>
    ensures { (v : Env Net) (b : Word) → AreFitting (sizes_of sizes.now) v → net.conditional (value v (tree_of c.now)) (value v (tree_of result)) b ≡ net.conditional (value v (tree_of c.now)) (value v (tree_of a)) b }
{
    if is_same(c, &a) && is_flag(sizes, c) {
        return constant_bit(true);
    }
    a
}

/// What is chosen where a condition is 0: 0 in place of the condition itself.
#[tactic(auto, using(crate::proofs::LogicRules::FlagLemmas::itself_where_clear))]
pub(crate) fn where_false(sizes: &Sizes, c: &Expr<Net>, b: Expr<Net>) -> Expr<Net>
    ensures { (v : Env Net) (a : Word) → AreFitting (sizes_of sizes.now) v → net.conditional (value v (tree_of c.now)) a (value v (tree_of result)) ≡ net.conditional (value v (tree_of c.now)) a (value v (tree_of b)) }
{
    if is_same(c, &b) && is_flag(sizes, c) {
        return constant_bit(false);
    }
    b
}
