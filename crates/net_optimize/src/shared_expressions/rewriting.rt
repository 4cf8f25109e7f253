//! Expressions by the new numbers of wires, in which wires are read where they have the right side.

ghost use Rattle.std.specs.Prelude.{◌≡◌, true, List, IfOk, map};
ghost use Rattle.net_core.specs.declared.tree.Net.{Net};
ghost use Rattle.net_core.specs.declared.tree.Net.TheVariants as net;
ghost use Rattle.net_core.specs.Nets.{WireTree};
ghost use Rattle.net_core.specs.View.{tree_of, trees_of, right_of, wire_of};
ghost use Rattle.net_core.specs.Value.{Env, value, concatenated_parts, right_value, stops};
ghost use Rattle.design_rules.specs.SolvedWires.Solving.{Solves};
ghost use Rattle.net_optimize.specs.SharedExpressions.Standing.{Stand};

use crate::shared_expressions::counting::is_operator;
use crate::shared_expressions::table::Table;
use net_core::build::parts;
use net_core::design::Wire;
use net_core::net_trees::equal::is_same;
use net_core::net_trees::mark::mark;
use net_core::tree::{Expr, Net, Parts, Right};
use net_rules::building::{binary_of, concatenation_of, conditional_of, memory_word_of, unary_of};
use std::alloc::{AllocError, Global};

// A net by its new number.
fn renumbered(numbers: &[u32], n: Net) -> Net
    ensures { (wires : List WireTree) (v u : Env Net) → Stand numbers.now wires v u → v.net result ≡ u.net n }
{
    match n {
        Net::Wire(i) => match numbers.get(i as usize) {
            Some(j) => Net::Wire(*j),
            // (no wire: it has no value either)
            None => Net::Memory(0),
        },
        n => n,
    }
}

// Whether a wire has this expression for its right side.
fn has_right(wires: &[Wire], at: usize, e: &Expr<Net>) -> bool
    ensures { result ≡ true → (v : Env Net) → Solves v 0 (map wire_of wires.now) → v.net (net.Wire at) ≡ value v (tree_of e.now) }
{
    if at >= wires.len() {
        return false;
    }
    let Right::Plain(other) = &wires[at].right else {
        return false;
    };
    is_same(other, e)
}

// The wire that has this expression for its right side, or the expression.
fn shared(table: &Table, limit: usize, e: Expr<Net>) -> Expr<Net>
    ensures { (v : Env Net) → Solves v 0 (map wire_of table.now.wires.items) → value v (tree_of result) ≡ value v (tree_of e) }
{
    if is_operator(&e)
        && let Some(j) = table.places.get(&mark(&e))
        && (*j as usize) < limit
        && has_right(&table.wires, *j as usize, &e)
    {
        return Expr::Read(Net::Wire(*j));
    }
    e
}

/// An expression of the same value, in which the right sides of wires that stand within it are read as these.
#[cycle(expressions)]
pub(crate) fn inside(
    alloc: Global,
    table: &Table,
    limit: usize,
    e: &Expr<Net>,
) -> Result<Expr<Net>, AllocError>
    ensures { (v u : Env Net) → Stand table.now.numbers.items (map wire_of table.now.wires.items) v u → IfOk result (λ r. value v (tree_of r) ≡ value u (tree_of e.now)) }
{
    match e {
        Expr::Const(word) => Ok(Expr::Const(*word)),
        Expr::Read(n) => Ok(Expr::Read(renumbered(&table.numbers, *n))),
        Expr::Bit(n, bit) => Ok(Expr::Bit(renumbered(&table.numbers, *n), *bit)),
        Expr::PartSelect(n, high, low) => {
            let net = renumbered(&table.numbers, *n);
            Ok(Expr::PartSelect(net, *high, *low))
        }
        Expr::MemoryWord(m, i) => memory_word_of(alloc, *m, rewritten(alloc, table, limit, i)),
        Expr::Unary(op, a) => unary_of(alloc, *op, rewritten(alloc, table, limit, a)),
        Expr::Binary(op, a, b) => {
            let a = rewritten(alloc, table, limit, a);
            binary_of(alloc, *op, a, rewritten(alloc, table, limit, b))
        }
        Expr::Conditional(c, a, b) => {
            let c = rewritten(alloc, table, limit, c);
            let a = rewritten(alloc, table, limit, a);
            conditional_of(alloc, c, a, rewritten(alloc, table, limit, b))
        }
        Expr::Concatenation(all) => {
            concatenation_of(alloc, rewritten_parts(alloc, table, limit, all))
        }
    }
}

/// An expression of the same value, in which the right sides of wires are read as these.
#[cycle(expressions)]
pub(crate) fn rewritten(
    alloc: Global,
    table: &Table,
    limit: usize,
    e: &Expr<Net>,
) -> Result<Expr<Net>, AllocError>
    ensures { (v u : Env Net) → Stand table.now.numbers.items (map wire_of table.now.wires.items) v u → IfOk result (λ r. value v (tree_of r) ≡ value u (tree_of e.now)) }
{
    let same = inside(alloc, table, limit, e)?;
    Ok(shared(table, limit, same))
}

// Without a recursion over the parts: there may be any number.
#[cycle(expressions)]
fn rewritten_parts(
    alloc: Global,
    table: &Table,
    limit: usize,
    all: &Parts<Net>,
) -> Result<Parts<Net>, AllocError>
    ensures { (v u : Env Net) → Stand table.now.numbers.items (map wire_of table.now.wires.items) v u → IfOk result (λ r. concatenated_parts v (trees_of r) ≡ concatenated_parts u (trees_of all.now)) }
{
    let mut prefix = Vec::new(alloc);
    let mut left = all;
    while let Parts::More(part, more) = left {
        prefix.push(rewritten(alloc, table, limit, part)?)?;
        left = more;
    }
    match left {
        Parts::Last(last) => {
            let last = rewritten(alloc, table, limit, last)?;
            let whole = parts(alloc, prefix, last)?;
            Ok(whole)
        }
        Parts::More(..) => unreachable!(),
    }
}

/// A right side of the same value, which stops where that one stops.
pub(crate) fn rewritten_right(
    alloc: Global,
    table: &Table,
    limit: usize,
    right: &Right<Net>,
) -> Result<Right<Net>, AllocError>
    ensures value { IfOk result (λ r. (v u : Env Net) → Stand table.now.numbers.items (map wire_of table.now.wires.items) v u → right_value v (right_of r) ≡ right_value u (right_of right.now)) }
    ensures stops { IfOk result (λ r. (v u : Env Net) → Stand table.now.numbers.items (map wire_of table.now.wires.items) v u → stops v (right_of r) ≡ stops u (right_of right.now)) }
{
    match right {
        Right::Plain(e) => {
            let e = inside(alloc, table, limit, e)?;
            Ok(Right::Plain(e))
        }
        Right::Quotient(a, b) => {
            let a = renumbered(&table.numbers, *a);
            Ok(Right::Quotient(a, renumbered(&table.numbers, *b)))
        }
        Right::Remainder(a, b) => {
            let a = renumbered(&table.numbers, *a);
            Ok(Right::Remainder(a, renumbered(&table.numbers, *b)))
        }
    }
}
