//! Which expressions are single bits, whatever the values of nets are.

ghost use Rattle.std.specs.Prelude.{◌≡◌, true};
ghost use Rattle.net_core.specs.declared.tree.Net.{Net};
ghost use Rattle.net_core.specs.declared.tree.Word.{Word};
ghost use Rattle.net_core.specs.View.{tree_of};
ghost use Rattle.net_core.specs.Value.{Env, value, apply};
ghost use Rattle.net_optimize.specs.Flags.{IsFlag};

use net_core::tree::{Expr, Net, Op, UnaryOp};

// Whether an operator gives a single bit.
fn compares(op: Op) -> bool
    ensures { result ≡ true → (a b : Word) → IsFlag (apply op a b) }
{
    match op {
        Op::Equal | Op::NotEqual | Op::Less | Op::LessEqual | Op::Greater | Op::GreaterEqual =>
            true,
        _ => false,
    }
}

// Whether an operator gives a single bit of two of these.
fn joins_bits(op: Op) -> bool
    ensures { result ≡ true → (a b : Word) → IsFlag a → IsFlag b → IsFlag (apply op a b) }
{
    match op {
        Op::And | Op::Or | Op::Xor => true,
        _ => false,
    }
}

/// Whether an expression is a single bit: a comparison, a bit of a net, a reduction, or what is made of these.
#[cycle(flags)]
pub(crate) fn is_flag(e: &Expr<Net>) -> bool
    ensures { result ≡ true → (v : Env Net) → IsFlag (value v (tree_of e.now)) }
{
    match e {
        Expr::Const(word) => word.width == 1 && word.value <= 1,
        Expr::Bit(..) => true,
        Expr::Unary(op, a) => match op {
            UnaryOp::ReduceOr => true,
            UnaryOp::Not => is_flag(a),
        },
        Expr::Binary(op, a, b) => {
            if compares(*op) {
                return true;
            }
            if !joins_bits(*op) {
                return false;
            }
            is_flag(a) && is_flag(b)
        }
        Expr::Conditional(_, a, b) => is_flag(a) && is_flag(b),
        _ => false,
    }
}
