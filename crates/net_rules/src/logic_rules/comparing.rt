//! Comparisons of single bits with constants.

ghost use Rattle.std.specs.Prelude.{◌≡◌, true, IfSome};
ghost use Rattle.net_core.specs.declared.tree.Net.{Net};
ghost use Rattle.net_core.specs.declared.tree.Word as words;
ghost use Rattle.net_core.specs.declared.tree.UnaryOp.TheVariants as prefix;
ghost use Rattle.net_core.specs.View.{tree_of};
ghost use Rattle.net_core.specs.Value.{Env, value, apply, apply_unary};
ghost use Rattle.net_rules.specs.NetSizes.Fitting.{AreFitting, sizes_of};
ghost use Rattle.net_rules.specs.LogicRules.Flags.{IsFlag};
ghost use Rattle.net_rules.specs.LogicRules.Made.{made_value};

use crate::logic_rules::flags::is_flag;
use crate::logic_rules::made::{Leaf, Made};
use crate::logic_rules::turning::turned;
use crate::logic_rules::views::constant_of;
use crate::net_sizes::Sizes;
use net_core::tree::{Expr, Net, Op, Word};

// Whether a single bit that is compared so with a constant gives itself.
fn gives_itself(op: Op, word: Word) -> bool
    ensures { result ≡ true → (a : words.Word) → IsFlag a → a ≡ apply op a word }
{
    match op {
        Op::Equal => word.value == 1,
        Op::NotEqual => word.value == 0,
        _ => false,
    }
}

// Whether a single bit that is compared so with a constant gives its negation.
fn gives_negation(op: Op, word: Word) -> bool
    ensures { result ≡ true → (a : words.Word) → IsFlag a → apply_unary prefix.Not a ≡ apply op a word }
{
    match op {
        Op::Equal => word.value == 0,
        Op::NotEqual => word.value == 1,
        _ => false,
    }
}

/// A single bit compared with a constant as fewer operators, if it is one.
pub(crate) fn compared<'a>(
    sizes: &Sizes,
    op: Op,
    a: &'a Expr<Net>,
    b: &'a Expr<Net>,
) -> Option<Made<'a>>
    ensures { IfSome result (λ m. (v : Env Net) → AreFitting (sizes_of sizes.now) v → made_value v m ≡ apply op (value v (tree_of a.now)) (value v (tree_of b.now))) }
{
    let Some(word) = constant_of(b) else {
        return None;
    };
    if !is_flag(sizes, a) {
        return None;
    }
    if gives_itself(op, word) {
        return Some(Made::Same(Leaf::Part(a)));
    }
    if gives_negation(op, word)
        && let Some(whole) = turned(sizes, a)
    {
        return Some(whole);
    }
    None
}
