//! Whether expressions are the same.

ghost use Rattle.std.specs.Prelude.{◌≡◌, true, IsTrue, map, IfSome, ◌<◌, length};
ghost use Rattle.net_core.specs.View.{tree_of, trees_of};

use crate::tree::{Expr, Net, Parts};

/// Whether two expressions are the same.
#[cycle(same)]
pub fn is_same(a: &Expr<Net>, b: &Expr<Net>) -> bool
    ensures { result ≡ true → tree_of a.now ≡ tree_of b.now }
{
    match (a, b) {
        (Expr::Const(x), Expr::Const(y)) => x == y,
        (Expr::Read(m), Expr::Read(n)) => m == n,
        (Expr::Bit(m, i), Expr::Bit(n, k)) => m == n && i == k,
        (Expr::PartSelect(m, i, j), Expr::PartSelect(n, k, l)) => m == n && i == k && j == l,
        (Expr::MemoryWord(m, a), Expr::MemoryWord(n, b)) => m == n && is_same(a, b),
        (Expr::Unary(op, a), Expr::Unary(other, b)) => op == other && is_same(a, b),
        (Expr::Binary(op, a, b), Expr::Binary(other, c, d)) => {
            op == other && is_same(a, c) && is_same(b, d)
        }
        (Expr::Conditional(a, b, c), Expr::Conditional(x, y, z)) => {
            is_same(a, x) && is_same(b, y) && is_same(c, z)
        }
        (Expr::Concatenation(a), Expr::Concatenation(b)) => are_same(a, b),
        _ => false,
    }
}

// Without a recursion over the parts: there may be any number.
#[cycle(same)]
fn are_same(a: &Parts<Net>, b: &Parts<Net>) -> bool
    ensures { result ≡ true → trees_of a.now ≡ trees_of b.now }
{
    let mut left = a;
    let mut right = b;
    loop {
        match (left, right) {
            (Parts::Last(a), Parts::Last(b)) => return is_same(a, b),
            (Parts::More(a, more), Parts::More(b, others)) => {
                if !is_same(a, b) {
                    return false;
                }
                left = more;
                right = others;
            }
            _ => return false,
        }
    }
}
