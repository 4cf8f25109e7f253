//! Copies of trees, by new numbers of wires and registers.

ghost use Rattle.std.specs.Prelude.{◌≡◌, ◌<◌, ◌++◌, IfOk, length, map};
ghost use Rattle.std.proofs.Common.{get_or};
ghost use Rattle.net_core.specs.View.{tree_of, trees_of, right_of, statement_of, statements_of};
ghost use Rattle.net_core.specs.Nets.{Tree, StatementTree, StatementTrees, SBlock, SEnd};
ghost use Rattle.block_core.specs.Rename.{rename, rename_parts, rename_right};
ghost use Rattle.net_optimize.specs.Renumber.{numbers as new_numbers, numbers_of, renumber, renumber_statement, renumber_statements, is_idle, busy, dropped, set_kept, when, when_else};

use crate::making::store_of;
use net_core::build::{self, block, when, when_else};
use net_core::tree::{Expr, Net, Parts, Right, Stmt, Stmts};
use net_rules::building::{binary_of, concatenation_of, conditional_of, memory_word_of, unary_of};
use std::alloc::{AllocError, Global};

// The number of what is dropped: no design has a wire or a register of this number.
const DROPPED: u32 = u32::MAX;

/// The new numbers of wires and registers, and of each register the one that is read for it.
#[derive(Drop)]
pub(crate) struct Numbering {
    pub(crate) wires: Vec<u32>,
    pub(crate) registers: Vec<u32>,
    pub(crate) firsts: Vec<u32>,
}

/// The new numbers of wires or registers, of which these are kept.
pub(crate) fn numbers(alloc: Global, keep: &[bool]) -> Result<Vec<u32>, AllocError>
    requires { length keep.now < 4294967295 }
    ensures { IfOk result (λ r. r.items ≡ new_numbers 0 keep.now) }
{
    let mut numbers = Vec::new(alloc);
    let mut next = 0;
    for is_kept in keep {
        if *is_kept {
            numbers.push(next)?;
            next += 1;
        } else {
            numbers.push(DROPPED)?;
        }
    }
    Ok(numbers)
}

fn new_number(numbers: &[u32], i: u32) -> u32
    ensures { result ≡ get_or numbers.now i dropped }
{
    numbers.get(i as usize).copied().unwrap_or(DROPPED)
}

// A net by the new numbers.
fn renumbered_net(net: Net, numbers: &Numbering) -> Net
    ensures { result ≡ renumber (numbers_of numbers.now) net }
{
    match net {
        Net::Wire(i) => Net::Wire(new_number(&numbers.wires, i)),
        Net::Register(i) => {
            let first = numbers.firsts.get(i as usize).copied().unwrap_or(i);
            Net::Register(new_number(&numbers.registers, first))
        }
        Net::Port(_) | Net::Memory(_) => net,
    }
}

/// An expression by the new numbers.
#[cycle(expressions)]
pub(crate) fn renumbered_expr(
    alloc: Global,
    e: &Expr<Net>,
    numbers: &Numbering,
) -> Result<Expr<Net>, AllocError>
    ensures { IfOk result (λ r. tree_of r ≡ rename (renumber (numbers_of numbers.now)) (tree_of e.now)) }
{
    match e {
        Expr::Const(word) => Ok(Expr::Const(*word)),
        Expr::Read(n) => Ok(Expr::Read(renumbered_net(*n, numbers))),
        Expr::Bit(n, bit) => Ok(Expr::Bit(renumbered_net(*n, numbers), *bit)),
        Expr::PartSelect(n, high, low) => {
            Ok(Expr::PartSelect(renumbered_net(*n, numbers), *high, *low))
        }
        Expr::MemoryWord(m, i) => {
            let m = renumbered_net(*m, numbers);
            memory_word_of(alloc, m, renumbered_expr(alloc, i, numbers))
        }
        Expr::Unary(op, a) => unary_of(alloc, *op, renumbered_expr(alloc, a, numbers)),
        Expr::Binary(op, a, b) => {
            let a = renumbered_expr(alloc, a, numbers);
            binary_of(alloc, *op, a, renumbered_expr(alloc, b, numbers))
        }
        Expr::Conditional(c, a, b) => {
            let c = renumbered_expr(alloc, c, numbers);
            let a = renumbered_expr(alloc, a, numbers);
            conditional_of(alloc, c, a, renumbered_expr(alloc, b, numbers))
        }
        Expr::Concatenation(parts) => {
            concatenation_of(alloc, renumbered_parts(alloc, parts, numbers))
        }
    }
}

// Without a recursion over the parts: there may be any number.
#[cycle(expressions)]
fn renumbered_parts(
    alloc: Global,
    parts: &Parts<Net>,
    numbers: &Numbering,
) -> Result<Parts<Net>, AllocError>
    ensures { IfOk result (λ r. trees_of r ≡ rename_parts (renumber (numbers_of numbers.now)) (trees_of parts.now)) }
{
    let mut prefix = Vec::new(alloc);
    let mut left = parts;
    while let Parts::More(part, more) = left {
        prefix.push(renumbered_expr(alloc, part, numbers)?)?;
        left = more;
    }
    match left {
        Parts::Last(last) => {
            let last = renumbered_expr(alloc, last, numbers)?;
            build::parts(alloc, prefix, last)
        }
        Parts::More(..) => unreachable!(),
    }
}

/// A right side by the new numbers.
pub(crate) fn renumbered_right(
    alloc: Global,
    right: &Right<Net>,
    numbers: &Numbering,
) -> Result<Right<Net>, AllocError>
    ensures { IfOk result (λ r. right_of r ≡ rename_right (renumber (numbers_of numbers.now)) (right_of right.now)) }
{
    match right {
        Right::Plain(e) => Ok(Right::Plain(renumbered_expr(alloc, e, numbers)?)),
        Right::Quotient(a, b) => {
            let a = renumbered_net(*a, numbers);
            Ok(Right::Quotient(a, renumbered_net(*b, numbers)))
        }
        Right::Remainder(a, b) => {
            let a = renumbered_net(*a, numbers);
            Ok(Right::Remainder(a, renumbered_net(*b, numbers)))
        }
    }
}

// What does nothing.
fn idle(alloc: Global) -> Result<Stmt<Net>, AllocError>
    ensures { IfOk result (λ r. statement_of r ≡ SBlock SEnd) }
{
    block(alloc, Stmts::End)
}

// Whether a statement is one that does nothing.
fn is_idle(stmt: &Stmt<Net>) -> bool
    ensures { result ≡ is_idle (statement_of stmt.now) }
{
    match stmt {
        Stmt::Block(more) => matches!(**more, Stmts::End),
        Stmt::If(..) | Stmt::IfElse(..) | Stmt::Set(..) | Stmt::Store(..) => false,
    }
}

/// One statement more, if it does something.
pub(crate) fn push_busy(all: &mut Vec<Stmt<Net>>, stmt: Stmt<Net>) -> Result<(), AllocError>
    ensures { IfOk result (λ u. map statement_of all.new.items ≡ map statement_of all.old.items ++ busy (statement_of stmt)) }
{
    if !is_idle(&stmt) {
        all.push(stmt)?;
    }
    Ok(())
}

// A register is set by its new number, if it is kept.
fn set_kept_of(
    alloc: Global,
    number: u32,
    e: Result<Expr<Net>, AllocError>,
) -> Result<Stmt<Net>, AllocError>
    ensures { (x : Tree Net) → IfOk e (λ a. tree_of a ≡ x) → IfOk result (λ r. statement_of r ≡ set_kept number x) }
{
    let e = e?;
    if number == DROPPED {
        return idle(alloc);
    }
    Ok(Stmt::Set(number, e))
}

// A statement under a condition, if it does something.
fn when_of(
    alloc: Global,
    c: Result<Expr<Net>, AllocError>,
    a: Result<Stmt<Net>, AllocError>,
) -> Result<Stmt<Net>, AllocError>
    ensures { (x : Tree Net) (y : StatementTree Net) → IfOk c (λ e. tree_of e ≡ x) → IfOk a (λ b. statement_of b ≡ y) → IfOk result (λ r. statement_of r ≡ when x y) }
{
    let c = c?;
    let a = a?;
    if is_idle(&a) {
        return Ok(a);
    }
    when(alloc, c, a)
}

// The first statement where the condition is 1, else the second, if one of these does something.
fn when_else_of(
    alloc: Global,
    c: Result<Expr<Net>, AllocError>,
    a: Result<Stmt<Net>, AllocError>,
    b: Result<Stmt<Net>, AllocError>,
) -> Result<Stmt<Net>, AllocError>
    ensures { (x : Tree Net) (y z : StatementTree Net) → IfOk c (λ e. tree_of e ≡ x) → IfOk a (λ d. statement_of d ≡ y) → IfOk b (λ d. statement_of d ≡ z) → IfOk result (λ r. statement_of r ≡ when_else x y z) }
{
    let c = c?;
    let a = a?;
    let b = b?;
    if is_idle(&a) && is_idle(&b) {
        return Ok(a);
    }
    when_else(alloc, c, a, b)
}

// Statements as one.
fn block_of(alloc: Global, more: Result<Stmts<Net>, AllocError>) -> Result<Stmt<Net>, AllocError>
    ensures { (x : StatementTrees Net) → IfOk more (λ l. statements_of l ≡ x) → IfOk result (λ r. statement_of r ≡ SBlock x) }
{
    let more = more?;
    block(alloc, more)
}

/// A statement by the new numbers, without what sets registers that are dropped.
#[cycle(statements)]
pub(crate) fn renumbered_stmt(
    alloc: Global,
    stmt: &Stmt<Net>,
    numbers: &Numbering,
) -> Result<Stmt<Net>, AllocError>
    ensures { IfOk result (λ r. statement_of r ≡ renumber_statement (numbers_of numbers.now) (statement_of stmt.now)) }
{
    match stmt {
        Stmt::Block(more) => block_of(alloc, renumbered_stmts(alloc, more, numbers)),
        Stmt::If(c, a) => {
            let c = renumbered_expr(alloc, c, numbers);
            when_of(alloc, c, renumbered_stmt(alloc, a, numbers))
        }
        Stmt::IfElse(c, a, b) => {
            let c = renumbered_expr(alloc, c, numbers);
            let a = renumbered_stmt(alloc, a, numbers);
            when_else_of(alloc, c, a, renumbered_stmt(alloc, b, numbers))
        }
        Stmt::Set(k, e) => {
            let number = new_number(&numbers.registers, *k);
            set_kept_of(alloc, number, renumbered_expr(alloc, e, numbers))
        }
        Stmt::Store(m, i, e) => {
            let i = renumbered_expr(alloc, i, numbers);
            store_of(*m, i, renumbered_expr(alloc, e, numbers))
        }
    }
}

// Without a recursion over the statements: there may be any number.
#[cycle(statements)]
fn renumbered_stmts(
    alloc: Global,
    stmts: &Stmts<Net>,
    numbers: &Numbering,
) -> Result<Stmts<Net>, AllocError>
    ensures { IfOk result (λ r. statements_of r ≡ renumber_statements (numbers_of numbers.now) (statements_of stmts.now)) }
{
    let mut prefix = Vec::new(alloc);
    let mut left = stmts;
    while let Stmts::Then(first, more) = left {
        let first = renumbered_stmt(alloc, first, numbers)?;
        push_busy(&mut prefix, first)?;
        left = more;
    }
    build::statements(alloc, prefix)
}
