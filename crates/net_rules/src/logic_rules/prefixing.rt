//! Operators before one operand.

ghost use Rattle.std.specs.Prelude.{◌≡◌, true, IfOk, IfSome};
ghost use Rattle.net_core.specs.declared.tree.Net.{Net};
ghost use Rattle.net_core.specs.declared.tree.UnaryOp.TheVariants as prefix;
ghost use Rattle.net_core.specs.View.{tree_of};
ghost use Rattle.net_core.specs.Value.{Env, value, apply_unary};
ghost use Rattle.net_rules.specs.NetSizes.Fitting.{AreFitting, sizes_of};
ghost use Rattle.net_rules.specs.LogicRules.Made.{made_value};

use crate::building::unary_of;
use crate::logic_rules::flags::is_flag;
use crate::logic_rules::made::{Leaf, Made, built};
use crate::logic_rules::testing::{tested, tests};
use crate::logic_rules::turning::turned;
use crate::net_sizes::Sizes;
use net_core::net_trees::copying::copied;
use net_core::tree::{Expr, Net, Op, UnaryOp, Word};
use std::alloc::{AllocError, Global};

// Whether an operator asks for any bit of what is chosen among constants.
fn reduces_choice(op: UnaryOp, a: &Expr<Net>) -> bool
    ensures { result ≡ true → op ≡ prefix.ReduceOr }
{
    op == UnaryOp::ReduceOr && tests(Op::NotEqual, a)
}

// An operator before an operand, if no prefix operator stands before another one then.
fn rule<'a>(sizes: &Sizes, op: UnaryOp, a: &'a Expr<Net>) -> Option<Made<'a>>
    ensures { IfSome result (λ m. (v : Env Net) → AreFitting (sizes_of sizes.now) v → made_value v m ≡ apply_unary op (value v (tree_of a.now))) }
{
    match op {
        UnaryOp::Not => turned(sizes, a),
        UnaryOp::ReduceOr => {
            if is_flag(sizes, a) {
                return Some(Made::Same(Leaf::Part(a)));
            }
            if matches!(a, Expr::Unary(..)) || tests(Op::NotEqual, a) {
                return None;
            }
            Some(Made::Prefixed(UnaryOp::ReduceOr, Leaf::Part(a)))
        }
    }
}

/// An operator before an operand: before the first one where no prefix operator stands before another one then, else before the second,
/// which has the same value.
pub(crate) fn prefixed(
    alloc: Global,
    sizes: &Sizes,
    op: UnaryOp,
    a: Result<Expr<Net>, AllocError>,
    former: &Expr<Net>,
) -> Result<Expr<Net>, AllocError>
    ensures { (v : Env Net) → AreFitting (sizes_of sizes.now) v → IfOk a (λ e. value v (tree_of e) ≡ value v (tree_of former.now)) → IfOk result (λ r. value v (tree_of r) ≡ apply_unary op (value v (tree_of former.now))) }
{
    let a = a?;
    if let Some(whole) = rule(sizes, op, &a) {
        return built(alloc, whole);
    }
    if reduces_choice(op, &a) {
        let zero = Word { width: 1, value: 0 };
        return tested(alloc, sizes, Op::NotEqual, &a, zero);
    }
    unary_of(alloc, op, copied(alloc, former))
}
