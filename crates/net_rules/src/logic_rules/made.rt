//! What rules choose, made of parts that stand elsewhere, and the expressions of it.

ghost use Rattle.std.specs.Prelude.{◌≡◌, IfOk};
ghost use Rattle.net_core.specs.declared.tree.Net.{Net};
ghost use Rattle.net_core.specs.View.{tree_of};
ghost use Rattle.net_core.specs.Value.{Env, value};
ghost use Rattle.net_rules.specs.LogicRules.Made.{leaf_value, made_value};

use crate::building::{binary_of, conditional_of, unary_of};
use net_core::net_trees::copying::copied;
use net_core::tree::{Expr, Net, Op, UnaryOp, Word};
use std::alloc::{AllocError, Global};

/// An expression that stands elsewhere, or a constant.
#[derive(Clone, Copy)]
pub(crate) enum Leaf<'a> {
    Part(&'a Expr<Net>),
    Constant(Word),
}

/// What stands for an expression.
#[derive(Clone, Copy)]
pub(crate) enum Made<'a> {
    Same(Leaf<'a>),
    Prefixed(UnaryOp, Leaf<'a>),
    Infixed(Op, Leaf<'a>, Leaf<'a>),
    /// The bits of two operands that are joined, each turned.
    NotInfixed(Op, Leaf<'a>, Leaf<'a>),
    /// The second where the first is 1, else the third.
    Chosen(Leaf<'a>, Leaf<'a>, Leaf<'a>),
}

// The expression of a leaf.
fn leaf_built(alloc: Global, leaf: Leaf) -> Result<Expr<Net>, AllocError>
    ensures { (v : Env Net) → IfOk result (λ r. value v (tree_of r) ≡ leaf_value v leaf.entry) }
{
    match leaf {
        Leaf::Part(e) => copied(alloc, e),
        Leaf::Constant(word) => Ok(Expr::Const(word)),
    }
}

/// The expression of what was chosen.
pub(crate) fn built(alloc: Global, made: Made) -> Result<Expr<Net>, AllocError>
    ensures { (v : Env Net) → IfOk result (λ r. value v (tree_of r) ≡ made_value v made.entry) }
{
    match made {
        Made::Same(a) => leaf_built(alloc, a),
        Made::Prefixed(op, a) => unary_of(alloc, op, leaf_built(alloc, a)),
        Made::Infixed(op, a, b) => {
            let a = leaf_built(alloc, a);
            binary_of(alloc, op, a, leaf_built(alloc, b))
        }
        Made::NotInfixed(op, a, b) => {
            let a = leaf_built(alloc, a);
            let inner = binary_of(alloc, op, a, leaf_built(alloc, b));
            unary_of(alloc, UnaryOp::Not, inner)
        }
        Made::Chosen(c, a, b) => {
            let c = leaf_built(alloc, c);
            let a = leaf_built(alloc, a);
            conditional_of(alloc, c, a, leaf_built(alloc, b))
        }
    }
}
