//! Expressions from their parts, where what is known of these makes them shorter.

ghost use Rattle.std.specs.Prelude.{◌≡◌, true, IfOk, IfSome};
ghost use Rattle.net_core.specs.declared.tree.Net.{Net};
ghost use Rattle.net_core.specs.declared.tree.Word.{Word};
ghost use Rattle.net_core.specs.Nets.{TConst};
ghost use Rattle.net_core.specs.View.{tree_of};
ghost use Rattle.net_core.specs.Value as net;
ghost use Rattle.net_core.specs.Value.{Env, value, apply, part_select};
ghost use Rattle.net_optimize.specs.Folding.{AreKnown};

use crate::comparing::compared;
use crate::flags::is_flag;
use net_core::build::{binary, conditional};
use net_core::net_trees::copying::copied;
use net_core::net_trees::equal::is_same;
use net_core::tree::{Expr, Net, Op};
use std::alloc::{AllocError, Global};

/// What is known of a net, or the net.
pub(crate) fn read(
    alloc: Global,
    known: &[Option<Expr<Net>>],
    n: Net,
) -> Result<Expr<Net>, AllocError>
    ensures { (v : Env Net) → AreKnown v known.now → IfOk result (λ r. value v (tree_of r) ≡ v.net n) }
{
    if let Net::Wire(i) = n
        && let Some(Some(e)) = known.get(i as usize)
    {
        return copied(alloc, e);
    }
    Ok(Expr::Read(n))
}

// The net that a wire is known to have the value of, or the net itself.
fn source(known: &[Option<Expr<Net>>], n: Net) -> Net
    ensures { (v : Env Net) → AreKnown v known.now → v.net result ≡ v.net n }
{
    if let Net::Wire(i) = n
        && let Some(Some(Expr::Read(m))) = known.get(i as usize)
    {
        return *m;
    }
    n
}

/// The bits of a net from a high one down to a low one.
pub(crate) fn select(known: &[Option<Expr<Net>>], n: Net, high: u8, low: u8) -> Expr<Net>
    ensures { (v : Env Net) → AreKnown v known.now → value v (tree_of result) ≡ part_select (v.net n) high low }
{
    let n = source(known, n);
    if high == low {
        return Expr::Bit(n, high);
    }
    Expr::PartSelect(n, high, low)
}

// An operator between two operands.
fn joined(alloc: Global, op: Op, a: Expr<Net>, b: Expr<Net>) -> Result<Expr<Net>, AllocError>
    ensures { IfOk result (λ r. (v : Env Net) → value v (tree_of r) ≡ apply op (value v (tree_of a)) (value v (tree_of b))) }
{
    if let (Op::Or, Expr::Const(word)) = (op, &b)
        && word.value == 0
    {
        return Ok(a);
    }
    if let Some(shorter) = compared(alloc, op, &a, &b)? {
        return Ok(shorter);
    }
    binary(alloc, op, a, b)
}

/// The same, where making the operands may have failed.
pub(crate) fn joined_of(
    alloc: Global,
    op: Op,
    a: Result<Expr<Net>, AllocError>,
    b: Result<Expr<Net>, AllocError>,
) -> Result<Expr<Net>, AllocError>
    ensures { (v : Env Net) (x y : Word) → IfOk a (λ e. value v (tree_of e) ≡ x) → IfOk b (λ e. value v (tree_of e) ≡ y) → IfOk result (λ r. value v (tree_of r) ≡ apply op x y) }
{
    let a = a?;
    let b = b?;
    joined(alloc, op, a, b)
}

// What an expression is where a condition holds.
fn where_true(condition: &Expr<Net>, a: Expr<Net>) -> Expr<Net>
    ensures { (v : Env Net) (b : Word) → net.conditional (value v (tree_of condition.now)) (value v (tree_of result)) b ≡ net.conditional (value v (tree_of condition.now)) (value v (tree_of a)) b }
{
    match a {
        Expr::Conditional(c, x, y) => {
            if is_same(condition, &c) {
                return Box::into_inner(x);
            }
            Expr::Conditional(c, x, y)
        }
        a => a,
    }
}

// What an expression is where a condition does not hold.
fn where_false(condition: &Expr<Net>, b: Expr<Net>) -> Expr<Net>
    ensures { (v : Env Net) (a : Word) → net.conditional (value v (tree_of condition.now)) a (value v (tree_of result)) ≡ net.conditional (value v (tree_of condition.now)) a (value v (tree_of b)) }
{
    match b {
        Expr::Conditional(c, x, y) => {
            if is_same(condition, &c) {
                return Box::into_inner(y);
            }
            Expr::Conditional(c, x, y)
        }
        b => b,
    }
}

// Whether an expression is this one bit.
fn is_bit(e: &Expr<Net>, bit: u64) -> bool
    ensures { result ≡ true → tree_of e.now ≡ TConst (net.word 1 bit) }
{
    match e {
        Expr::Const(word) => word.width == 1 && word.value == bit,
        _ => false,
    }
}

// Which of a condition and two expressions the choice between these is, if it is one.
fn taken<'a>(c: &'a Expr<Net>, a: &'a Expr<Net>, b: &'a Expr<Net>) -> Option<&'a Expr<Net>>
    ensures { IfSome result (λ r. (v : Env Net) → value v (tree_of r.now) ≡ net.conditional (value v (tree_of c.now)) (value v (tree_of a.now)) (value v (tree_of b.now))) }
{
    if let Expr::Const(word) = c {
        return Some(if word.value == 0 { b } else { a });
    }
    if is_same(a, b) {
        return Some(a);
    }
    if is_bit(a, 1) && is_bit(b, 0) && is_flag(c) {
        return Some(c);
    }
    None
}

/// The first of two expressions where the condition is 1, else the second.
pub(crate) fn chosen_of(
    alloc: Global,
    c: Result<Expr<Net>, AllocError>,
    a: Result<Expr<Net>, AllocError>,
    b: Result<Expr<Net>, AllocError>,
) -> Result<Expr<Net>, AllocError>
    ensures { (v : Env Net) (x y z : Word) → IfOk c (λ e. value v (tree_of e) ≡ x) → IfOk a (λ e. value v (tree_of e) ≡ y) → IfOk b (λ e. value v (tree_of e) ≡ z) → IfOk result (λ r. value v (tree_of r) ≡ net.conditional x y z) }
{
    let c = c?;
    let a = where_true(&c, a?);
    let b = where_false(&c, b?);
    if let Some(whole) = taken(&c, &a, &b) {
        return copied(alloc, whole);
    }
    conditional(alloc, c, a, b)
}
