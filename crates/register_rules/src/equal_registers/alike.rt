//! Whether expressions have one value, where one net may stand for others.

ghost use Rattle.std.specs.Prelude.{◌≡◌, true};
ghost use Rattle.std.proofs.Common.{get_or};
ghost use Rattle.net_core.specs.declared.tree.Net.{Net};
ghost use Rattle.net_core.specs.View.{tree_of, trees_of, right_of};
ghost use Rattle.net_core.specs.Value.{Env, value, concatenated_parts, right_value};
ghost use Rattle.register_rules.specs.EqualRegisters.Alike.{AreAlike};

use net_core::tree::{Expr, Net, Parts, Right};

/// Which nets stand for others: for each register, and for each wire that the first and the second of two expressions may read.
#[derive(Clone, Copy)]
pub(crate) struct Firsts<'a> {
    pub(crate) registers: &'a [u32],
    pub(crate) left: &'a [u32],
    pub(crate) right: &'a [u32],
}

/// What stands for a net of this number: itself, where no other is listed.
pub(crate) fn first(firsts: &[u32], k: u32) -> u32
    ensures { result ≡ get_or firsts.now k k }
{
    firsts.get(k as usize).copied().unwrap_or(k)
}

// Whether one net stands for both.
fn is_alike_net(firsts: Firsts, a: Net, b: Net) -> bool
    ensures { result ≡ true → (v w : Env Net) → AreAlike firsts.entry.registers.now firsts.entry.left.now firsts.entry.right.now v w → v.net a ≡ w.net b }
{
    match (a, b) {
        (Net::Port(i), Net::Port(k)) => i == k,
        (Net::Register(i), Net::Register(k)) => {
            first(firsts.registers, i) == first(firsts.registers, k)
        }
        (Net::Wire(i), Net::Wire(k)) => {
            (i as usize) < firsts.left.len()
                && (k as usize) < firsts.right.len()
                && first(firsts.left, i) == first(firsts.right, k)
        }
        _ => false,
    }
}

/// Whether two expressions are the same but for nets for which one stands.
#[cycle(alike)]
pub(crate) fn is_alike(firsts: Firsts, a: &Expr<Net>, b: &Expr<Net>) -> bool
    ensures { result ≡ true → (v w : Env Net) → AreAlike firsts.entry.registers.now firsts.entry.left.now firsts.entry.right.now v w → value v (tree_of a.now) ≡ value w (tree_of b.now) }
{
    match (a, b) {
        (Expr::Const(x), Expr::Const(y)) => x == y,
        (Expr::Read(m), Expr::Read(n)) => is_alike_net(firsts, *m, *n),
        (Expr::Bit(m, i), Expr::Bit(n, k)) => i == k && is_alike_net(firsts, *m, *n),
        (Expr::PartSelect(m, i, j), Expr::PartSelect(n, k, l)) => {
            i == k && j == l && is_alike_net(firsts, *m, *n)
        }
        (Expr::MemoryWord(m, a), Expr::MemoryWord(n, b)) => m == n && is_alike(firsts, a, b),
        (Expr::Unary(op, a), Expr::Unary(other, b)) => op == other && is_alike(firsts, a, b),
        (Expr::Binary(op, a, b), Expr::Binary(other, c, d)) => {
            op == other && is_alike(firsts, a, c) && is_alike(firsts, b, d)
        }
        (Expr::Conditional(a, b, c), Expr::Conditional(x, y, z)) => {
            is_alike(firsts, a, x) && is_alike(firsts, b, y) && is_alike(firsts, c, z)
        }
        (Expr::Concatenation(a), Expr::Concatenation(b)) => are_alike(firsts, a, b),
        _ => false,
    }
}

// Without a recursion over the parts: there may be any number.
#[cycle(alike)]
fn are_alike(firsts: Firsts, a: &Parts<Net>, b: &Parts<Net>) -> bool
    ensures { result ≡ true → (v w : Env Net) → AreAlike firsts.entry.registers.now firsts.entry.left.now firsts.entry.right.now v w → concatenated_parts v (trees_of a.now) ≡ concatenated_parts w (trees_of b.now) }
{
    let mut left = a;
    let mut right = b;
    loop {
        match (left, right) {
            (Parts::Last(a), Parts::Last(b)) => return is_alike(firsts, a, b),
            (Parts::More(a, more), Parts::More(b, others)) => {
                if !is_alike(firsts, a, b) {
                    return false;
                }
                left = more;
                right = others;
            }
            _ => return false,
        }
    }
}

/// Whether two right sides are the same but for nets for which one stands.
pub(crate) fn is_alike_right(firsts: Firsts, a: &Right<Net>, b: &Right<Net>) -> bool
    ensures { result ≡ true → (v w : Env Net) → AreAlike firsts.entry.registers.now firsts.entry.left.now firsts.entry.right.now v w → right_value v (right_of a.now) ≡ right_value w (right_of b.now) }
{
    match (a, b) {
        (Right::Plain(a), Right::Plain(b)) => is_alike(firsts, a, b),
        (Right::Quotient(a, b), Right::Quotient(c, d))
        | (Right::Remainder(a, b), Right::Remainder(c, d)) => {
            is_alike_net(firsts, *a, *c) && is_alike_net(firsts, *b, *d)
        }
        _ => false,
    }
}
