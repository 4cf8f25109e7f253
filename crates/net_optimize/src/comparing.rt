//! Comparisons and reductions of numbers that begin with zeros: these do not count.

ghost use Rattle.std.specs.Prelude.{◌≡◌, true, IfOk, IfSome};
ghost use Rattle.net_core.specs.declared.tree.Net.{Net};
ghost use Rattle.net_core.specs.declared.tree.Word.{Word};
ghost use Rattle.net_core.specs.View.{tree_of, trees_of};
ghost use Rattle.net_core.specs.Value.{Env, value, apply, concatenated_parts};
ghost use Rattle.net_optimize.specs.Numbers.{ComparesNumbers};

use net_core::build::{self, binary};
use net_core::net_trees::copying::{copied, copied_parts};
use net_core::tree::{Expr, Net, Op, Parts, Word};
use std::alloc::{AllocError, Global};

// Whether an operator compares two numbers.
fn compares(op: Op) -> bool
    ensures { result ≡ true → ComparesNumbers op }
{
    matches!(
        op,
        Op::Equal | Op::NotEqual | Op::Less | Op::LessEqual | Op::Greater | Op::GreaterEqual
    )
}

// How many zeros stand at the high end of a constant or of a concatenation, where some other bit is left.
fn zeros(e: &Expr<Net>) -> u8 {
    match e {
        Expr::Const(word) => {
            let bits = 64 - word.value.leading_zeros();
            let bits = if bits == 0 { 1 } else { bits };
            word.width.saturating_sub(bits as u8)
        }
        Expr::Concatenation(parts) => match &**parts {
            Parts::More(Expr::Const(word), _) if word.value == 0 => word.width,
            _ => 0,
        },
        _ => 0,
    }
}

// The parts of a concatenation as an expression.
fn as_one(alloc: Global, parts: &Parts<Net>) -> Result<Expr<Net>, AllocError>
    ensures { IfOk result (λ r. (v : Env Net) → value v (tree_of r) ≡ concatenated_parts v (trees_of parts.now)) }
{
    match parts {
        Parts::Last(e) => copied(alloc, e),
        Parts::More(..) => {
            let parts = copied_parts(alloc, parts)?;
            Ok(Expr::Concatenation(Box::new(alloc, parts)?))
        }
    }
}

// A concatenation with so many zeros less at its high end, if it has them.
fn parts_without(
    alloc: Global,
    parts: &Parts<Net>,
    less: u8,
) -> Result<Option<Expr<Net>>, AllocError>
    ensures { IfOk result (λ o. IfSome o (λ r. (v : Env Net) → (value v (tree_of r)).value ≡ (concatenated_parts v (trees_of parts.now)).value)) }
{
    let Parts::More(Expr::Const(word), rest) = parts else {
        return Ok(None);
    };
    if word.value != 0 || word.width < less {
        return Ok(None);
    }
    let rest = as_one(alloc, rest)?;
    if word.width == less {
        return Ok(Some(rest));
    }
    let first = Expr::Const(Word {
        width: word.width - less,
        value: 0,
    });
    let mut prefix = Vec::new(alloc);
    prefix.push(first)?;
    let parts = build::parts(alloc, prefix, rest)?;
    Ok(Some(Expr::Concatenation(Box::new(alloc, parts)?)))
}

/// An expression of the same number with so many zeros less at its high end, if it has them.
fn without(alloc: Global, e: &Expr<Net>, less: u8) -> Result<Option<Expr<Net>>, AllocError>
    ensures { IfOk result (λ o. IfSome o (λ r. (v : Env Net) → (value v (tree_of r)).value ≡ (value v (tree_of e.now)).value)) }
{
    match e {
        Expr::Const(word) if word.width > less => Ok(Some(Expr::Const(Word {
            width: word.width - less,
            value: word.value,
        }))),
        Expr::Concatenation(parts) => parts_without(alloc, parts, less),
        _ => Ok(None),
    }
}

/// An expression of the same number without the zeros at its high end, if it has some.
pub(crate) fn shortest(alloc: Global, e: &Expr<Net>) -> Result<Option<Expr<Net>>, AllocError>
    ensures { IfOk result (λ o. IfSome o (λ r. (v : Env Net) → (value v (tree_of r)).value ≡ (value v (tree_of e.now)).value)) }
{
    let less = zeros(e);
    if less == 0 {
        return Ok(None);
    }
    without(alloc, e, less)
}

/// A comparison of numbers without the zeros that stand at the high end of both, if it is one of such numbers.
pub(crate) fn compared(
    alloc: Global,
    op: Op,
    a: &Expr<Net>,
    b: &Expr<Net>,
) -> Result<Option<Expr<Net>>, AllocError>
    ensures { IfOk result (λ o. IfSome o (λ r. (v : Env Net) → value v (tree_of r) ≡ apply op (value v (tree_of a.now)) (value v (tree_of b.now)))) }
{
    let less = zeros(a).min(zeros(b));
    if less == 0 || !compares(op) {
        return Ok(None);
    }
    let Some(left) = without(alloc, a, less)? else {
        return Ok(None);
    };
    let Some(right) = without(alloc, b, less)? else {
        return Ok(None);
    };
    let whole = binary(alloc, op, left, right)?;
    Ok(Some(whole))
}
