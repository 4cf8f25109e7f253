//! Operators before one operand.

ghost use Rattle.std.specs.Prelude.{◌≡◌, IfOk};
ghost use Rattle.net_core.specs.declared.tree.Net.{Net};
ghost use Rattle.net_core.specs.declared.tree.UnaryOp.TheVariants as prefix;
ghost use Rattle.net_core.specs.View.{tree_of};
ghost use Rattle.net_core.specs.Value.{Env, value, apply_unary};

use crate::comparing::shortest;
use crate::flags::is_flag;
use net_core::build::unary;
use net_core::net_trees::copying::copied;
use net_core::tree::{Expr, Net, UnaryOp};
use net_rules::logic_rules::opposite;
use std::alloc::{AllocError, Global};

// Whether an operator before an operand that has one itself needs no place.
fn vanishes(op: UnaryOp, a: &Expr<Net>) -> bool {
    match op {
        UnaryOp::ReduceOr => is_flag(a),
        UnaryOp::Not => match a {
            Expr::Unary(UnaryOp::Not, inner) => is_flag(inner),
            _ => false,
        },
    }
}

// Whether any bit of an operand is 1: that of a single bit.
fn any_bit(alloc: Global, a: Expr<Net>) -> Result<Expr<Net>, AllocError>
    ensures { IfOk result (λ r. (v : Env Net) → value v (tree_of r) ≡ apply_unary prefix.ReduceOr (value v (tree_of a))) }
{
    if is_flag(&a) {
        return Ok(a);
    }
    let whole = unary(alloc, UnaryOp::ReduceOr, a)?;
    Ok(whole)
}

// Whether any bit of an operand is 1, of which zeros at its high end do not count.
fn reduced(alloc: Global, a: Expr<Net>) -> Result<Expr<Net>, AllocError>
    ensures { IfOk result (λ r. (v : Env Net) → value v (tree_of r) ≡ apply_unary prefix.ReduceOr (value v (tree_of a))) }
{
    match shortest(alloc, &a)? {
        Some(shorter) => any_bit(alloc, shorter),
        None => any_bit(alloc, a),
    }
}

// The bits of an operand, each turned: those of a comparison by the opposite one.
fn turned(alloc: Global, a: Expr<Net>) -> Result<Expr<Net>, AllocError>
    ensures { IfOk result (λ r. (v : Env Net) → value v (tree_of r) ≡ apply_unary prefix.Not (value v (tree_of a))) }
{
    match a {
        Expr::Binary(op, x, y) => {
            if let Some(other) = opposite(op) {
                return Ok(Expr::Binary(other, x, y));
            }
            let same = Expr::Binary(op, x, y);
            let whole = unary(alloc, UnaryOp::Not, same)?;
            Ok(whole)
        }
        a => turned_twice(alloc, a),
    }
}

// The bits of an operand, each turned: a single bit that is turned already is left.
fn turned_twice(alloc: Global, a: Expr<Net>) -> Result<Expr<Net>, AllocError>
    ensures { IfOk result (λ r. (v : Env Net) → value v (tree_of r) ≡ apply_unary prefix.Not (value v (tree_of a))) }
{
    match a {
        Expr::Unary(op, inner) => {
            if op == UnaryOp::Not && is_flag(&inner) {
                return Ok(Box::into_inner(inner));
            }
            let same = Expr::Unary(op, inner);
            let whole = unary(alloc, UnaryOp::Not, same)?;
            Ok(whole)
        }
        a => {
            let whole = unary(alloc, UnaryOp::Not, a)?;
            Ok(whole)
        }
    }
}

// An operator before an operand.
fn prefixed(alloc: Global, op: UnaryOp, a: Expr<Net>) -> Result<Expr<Net>, AllocError>
    ensures { IfOk result (λ r. (v : Env Net) → value v (tree_of r) ≡ apply_unary op (value v (tree_of a))) }
{
    match op {
        UnaryOp::ReduceOr => reduced(alloc, a),
        UnaryOp::Not => turned(alloc, a),
    }
}

/// An operator before an operand, or before the former one, which has the same value, where this one begins with a prefix operator: none
/// stands before another one.
pub(crate) fn prefixed_of(
    alloc: Global,
    op: UnaryOp,
    a: Result<Expr<Net>, AllocError>,
    former: &Expr<Net>,
) -> Result<Expr<Net>, AllocError>
    ensures { (v : Env Net) → IfOk a (λ e. value v (tree_of e) ≡ value v (tree_of former.now)) → IfOk result (λ r. value v (tree_of r) ≡ apply_unary op (value v (tree_of former.now))) }
{
    let a = a?;
    if matches!(a, Expr::Unary(..)) && !vanishes(op, &a) {
        return prefixed(alloc, op, copied(alloc, former)?);
    }
    prefixed(alloc, op, a)
}
