//! What an expression is made of.

ghost use Rattle.std.specs.Prelude.{◌≡◌, IfSome};
ghost use Rattle.net_core.specs.declared.tree.Net.{Net};
ghost use Rattle.net_core.specs.declared.tree.UnaryOp.TheVariants as prefix;
ghost use Rattle.net_core.specs.View.{tree_of};
ghost use Rattle.net_core.specs.Value.{Env, value, bit, apply_unary};

use net_core::tree::{Expr, Net, UnaryOp, Word};

/// The word of a constant.
pub(crate) fn constant_of(e: &Expr<Net>) -> Option<Word>
    ensures { IfSome result (λ w. (v : Env Net) → value v (tree_of e.now) ≡ w) }
{
    match e {
        Expr::Const(word) => Some(*word),
        _ => None,
    }
}

/// The single bit that an expression is.
pub(crate) fn bit_of(e: &Expr<Net>) -> Option<bool>
    ensures { IfSome result (λ t. (v : Env Net) → value v (tree_of e.now) ≡ bit t) }
{
    match e {
        Expr::Const(Word { width: 1, value: 0 }) => Some(false),
        Expr::Const(Word { width: 1, value: 1 }) => Some(true),
        _ => None,
    }
}

/// The word of a single bit.
pub(crate) fn bit_word(is_set: bool) -> Word
    ensures { result ≡ bit is_set }
{
    let value = if is_set { 1 } else { 0 };
    Word { width: 1, value }
}

/// A single bit.
pub(crate) fn constant_bit(is_set: bool) -> Expr<Net>
    ensures { (v : Env Net) → value v (tree_of result) ≡ bit is_set }
{
    Expr::Const(bit_word(is_set))
}

/// The expression that a negation turns.
pub(crate) fn turned_by(e: &Expr<Net>) -> Option<&Expr<Net>>
    ensures { IfSome result (λ r. (v : Env Net) → value v (tree_of e.now) ≡ apply_unary prefix.Not (value v (tree_of r.now))) }
{
    match e {
        Expr::Unary(UnaryOp::Not, inner) => Some(inner),
        _ => None,
    }
}
