//! Negations of single bits.

ghost use Rattle.std.specs.Prelude.{◌≡◌, IfSome};
ghost use Rattle.net_core.specs.declared.tree.Net.{Net};
ghost use Rattle.net_core.specs.declared.tree.Word.{Word};
ghost use Rattle.net_core.specs.declared.tree.UnaryOp.TheVariants as prefix;
ghost use Rattle.net_core.specs.View.{tree_of};
ghost use Rattle.net_core.specs.Value as net;
ghost use Rattle.net_core.specs.Value.{Env, value, apply, apply_unary};
ghost use Rattle.net_rules.specs.NetSizes.Fitting.{AreFitting, sizes_of};
ghost use Rattle.net_rules.specs.LogicRules.Made.{made_value};

use crate::logic_rules::flags::is_flag;
use crate::logic_rules::made::{Leaf, Made};
use crate::logic_rules::views::{bit_of, bit_word};
use crate::net_sizes::{Sizes, expr_size};
use net_core::tree::{Expr, Net, Op, UnaryOp, Word};

/// The comparison that holds where another one does not.
pub fn opposite(op: Op) -> Option<Op>
    ensures { IfSome result (λ other. (a b : Word) → apply other a b ≡ apply_unary prefix.Not (apply op a b)) }
{
    match op {
        Op::Equal => Some(Op::NotEqual),
        Op::NotEqual => Some(Op::Equal),
        Op::Less => Some(Op::GreaterEqual),
        Op::LessEqual => Some(Op::Greater),
        Op::Greater => Some(Op::LessEqual),
        Op::GreaterEqual => Some(Op::Less),
        _ => None,
    }
}

// A negation of what begins with a prefix operator, which no other one may stand before.
fn prefix_turned<'a>(sizes: &Sizes, op: UnaryOp, a: &'a Expr<Net>) -> Option<Made<'a>>
    ensures { IfSome result (λ m. (v : Env Net) → AreFitting (sizes_of sizes.now) v → made_value v m ≡ apply_unary prefix.Not (apply_unary op (value v (tree_of a.now)))) }
{
    match op {
        UnaryOp::Not => {
            if !is_flag(sizes, a) {
                return None;
            }
            Some(Made::Same(Leaf::Part(a)))
        }
        UnaryOp::ReduceOr => {
            let width = expr_size(sizes, a);
            if width == 0 {
                return None;
            }
            let zero = Leaf::Constant(Word { width, value: 0 });
            Some(Made::Infixed(Op::Equal, Leaf::Part(a), zero))
        }
    }
}

// A negation of a single bit that one bit masks, where another one is chosen for it.
fn mask_turned<'a>(
    sizes: &Sizes,
    condition: &'a Expr<Net>,
    a: &'a Expr<Net>,
    b: &'a Expr<Net>,
) -> Option<Made<'a>>
    ensures { IfSome result (λ m. (v : Env Net) → AreFitting (sizes_of sizes.now) v → made_value v m ≡ apply_unary prefix.Not (net.conditional (value v (tree_of condition.now)) (value v (tree_of a.now)) (value v (tree_of b.now)))) }
{
    if !is_flag(sizes, condition) {
        return None;
    }
    if let Some(false) = bit_of(a)
        && is_flag(sizes, b)
    {
        let one = Leaf::Constant(bit_word(true));
        return Some(Made::Chosen(Leaf::Part(b), Leaf::Part(condition), one));
    }
    if let Some(true) = bit_of(b)
        && is_flag(sizes, a)
    {
        let zero = Leaf::Constant(bit_word(false));
        return Some(Made::Chosen(Leaf::Part(a), zero, Leaf::Part(condition)));
    }
    None
}

/// The bits of an expression, each turned, if no prefix operator stands before another one then.
pub(crate) fn turned<'a>(sizes: &Sizes, a: &'a Expr<Net>) -> Option<Made<'a>>
    ensures { IfSome result (λ m. (v : Env Net) → AreFitting (sizes_of sizes.now) v → made_value v m ≡ apply_unary prefix.Not (value v (tree_of a.now))) }
{
    if let Some(is_set) = bit_of(a) {
        return Some(Made::Same(Leaf::Constant(bit_word(!is_set))));
    }
    match a {
        Expr::Unary(op, inner) => return prefix_turned(sizes, *op, inner),
        Expr::Binary(op, x, y) => {
            if let Some(other) = opposite(*op) {
                return Some(Made::Infixed(other, Leaf::Part(x), Leaf::Part(y)));
            }
        }
        Expr::Conditional(c, x, y) => {
            if let Some(whole) = mask_turned(sizes, c, x, y) {
                return Some(whole);
            }
        }
        _ => {}
    }
    Some(Made::Prefixed(UnaryOp::Not, Leaf::Part(a)))
}
