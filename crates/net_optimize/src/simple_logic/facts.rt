//! What is known of the nets of a design, and what it makes of expressions.

ghost use Rattle.std.specs.Prelude.{◌≡◌, IfOk};
ghost use Rattle.net_core.specs.declared.tree.Net.{Net};
ghost use Rattle.net_core.specs.View.{tree_of, right_of};
ghost use Rattle.net_core.specs.Value.{Env, value, right_value};
ghost use Rattle.net_rules.specs.LogicRules.Known.{IsValued};
ghost use Rattle.net_optimize.specs.SimpleLogic.Simple.{Hold, IsSameRight};

use net_core::net_trees::copying::copied;
use net_core::tree::{Expr, Net, Right};
use net_rules::logic_rules::simplified;
use net_rules::net_sizes::Sizes;
use std::alloc::{AllocError, Global};

/// How many bits nets have, and which expressions wires are.
#[derive(Drop)]
pub(crate) struct Facts {
    pub(crate) sizes: Sizes,
    pub(crate) known: Vec<Option<Expr<Net>>>,
}

/// An expression of the same value.
pub(crate) fn simple(alloc: Global, facts: &Facts, e: &Expr<Net>) -> Result<Expr<Net>, AllocError>
    ensures { (v : Env Net) → Hold facts.now v → IfOk result (λ r. value v (tree_of r) ≡ value v (tree_of e.now)) }
{
    let whole = simplified(alloc, &facts.sizes, &facts.known, e)?;
    Ok(whole)
}

/// A right side of the same value.
pub(crate) fn simple_right(
    alloc: Global,
    facts: &Facts,
    right: &Right<Net>,
) -> Result<Right<Net>, AllocError>
    ensures { IfOk result (λ r. (v : Env Net) → Hold facts.now v → IsSameRight v (right_of right.now) (right_of r)) }
{
    match right {
        Right::Plain(e) => Ok(Right::Plain(simple(alloc, facts, e)?)),
        Right::Quotient(a, b) => Ok(Right::Quotient(*a, *b)),
        Right::Remainder(a, b) => Ok(Right::Remainder(*a, *b)),
    }
}

/// The right side of a wire, where rules for expressions look through the wire at it.
pub(crate) fn seen_through(
    alloc: Global,
    right: &Right<Net>,
) -> Result<Option<Expr<Net>>, AllocError>
    ensures { IfOk result (λ r. (v : Env Net) → IsValued v r (right_value v (right_of right.now))) }
{
    if let Right::Plain(e) = right
        && matches!(e, Expr::Const(_) | Expr::Read(_) | Expr::Concatenation(_))
    {
        let same = copied(alloc, e)?;
        return Ok(Some(same));
    }
    Ok(None)
}
