//! Comparisons with constants of what is chosen among constants.

ghost use Rattle.std.specs.Prelude.{◌≡◌, IfOk, IfSome};
ghost use Rattle.net_core.specs.declared.tree.Net.{Net};
ghost use Rattle.net_core.specs.View.{tree_of};
ghost use Rattle.net_core.specs.Value.{Env, value, apply, bit};
ghost use Rattle.net_rules.specs.NetSizes.Fitting.{AreFitting, sizes_of};

use crate::building::binary_of;
use crate::logic_rules::choosing::chosen;
use crate::logic_rules::views::constant_bit;
use crate::net_sizes::Sizes;
use net_core::build::binary;
use net_core::net_trees::copying::copied;
use net_core::tree::{Expr, Net, Op, Word};
use std::alloc::{AllocError, Global};

// Whether two words compare so.
fn holds(op: Op, a: Word, b: Word) -> Option<bool>
    ensures { IfSome result (λ t. apply op a b ≡ bit t) }
{
    match op {
        Op::Equal => Some(a.value == b.value),
        Op::NotEqual => Some(a.value != b.value),
        Op::Less => Some(a.value < b.value),
        Op::LessEqual => Some(a.value <= b.value),
        Op::Greater => Some(a.value > b.value),
        Op::GreaterEqual => Some(a.value >= b.value),
        _ => None,
    }
}

/// Whether an operator compares what is chosen among constants.
#[cycle(choices)]
pub(crate) fn tests(op: Op, e: &Expr<Net>) -> bool {
    match e {
        Expr::Const(word) => holds(op, *word, *word).is_some(),
        Expr::Conditional(_, a, b) => tests(op, a) && tests(op, b),
        _ => false,
    }
}

/// A comparison with a constant, chosen as what is compared is, where this is chosen among constants.
#[cycle(tests)]
pub(crate) fn tested(
    alloc: Global,
    sizes: &Sizes,
    op: Op,
    e: &Expr<Net>,
    word: Word,
) -> Result<Expr<Net>, AllocError>
    ensures { (v : Env Net) → AreFitting (sizes_of sizes.now) v → IfOk result (λ r. value v (tree_of r) ≡ apply op (value v (tree_of e.now)) word) }
{
    match e {
        Expr::Const(other) => match holds(op, *other, word) {
            Some(is_set) => Ok(constant_bit(is_set)),
            None => binary(alloc, op, Expr::Const(*other), Expr::Const(word)),
        },
        Expr::Conditional(c, a, b) => {
            let a = tested(alloc, sizes, op, a, word);
            let b = tested(alloc, sizes, op, b, word);
            chosen(alloc, sizes, copied(alloc, c), a, b)
        }
        _ => binary_of(alloc, op, copied(alloc, e), Ok(Expr::Const(word))),
    }
}
