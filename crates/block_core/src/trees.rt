//! Trees of parts as trees of the design.

ghost use Rattle.std.specs.Prelude.{◌≡◌, IfOk};
ghost use Rattle.net_core.specs.View.{tree_of, trees_of, right_of, statement_of, statements_of};
ghost use Rattle.block_core.specs.Rename.{rename, rename_parts, rename_right, rename_statement, rename_statements};
ghost use Rattle.block_core.specs.View.{resolve_in};
ghost use Rattle.block_core.specs.Range.{tree_in_range, trees_in_range, right_in_range, statement_in_range, statements_in_range, Tells};

use crate::error::LinkError;
use crate::name::{Name, Part};
use crate::starts::{Starts, behind, resolve};
use net_core::build::{self, binary, block, conditional, memory_word, unary, when, when_else};
use net_core::tree::{Expr, Net, Parts, Right, Stmt, Stmts};
use std::alloc::Global;

/// An expression by the nets of the design.
#[cycle(expressions)]
pub(crate) fn link_expr<P: Part>(
    alloc: Global,
    e: &Expr<Name<P>>,
    starts: &Starts,
) -> Result<Expr<Net>, LinkError>
    ensures linked { IfOk result (λ r. tree_of r ≡ rename (resolve_in P.place starts.now) (tree_of e.now)) }
    ensures range { Tells result (tree_in_range (rename (resolve_in P.place starts.now) (tree_of e.now))) }
{
    match e {
        Expr::Const(word) => Ok(Expr::Const(*word)),
        Expr::Read(n) => Ok(Expr::Read(resolve(*n, starts)?)),
        Expr::Bit(n, bit) => Ok(Expr::Bit(resolve(*n, starts)?, *bit)),
        Expr::PartSelect(n, high, low) => {
            Ok(Expr::PartSelect(resolve(*n, starts)?, *high, *low))
        }
        Expr::MemoryWord(m, i) => {
            let memory = resolve(*m, starts)?;
            let index = link_expr(alloc, i, starts)?;
            Ok(memory_word(alloc, memory, index)?)
        }
        Expr::Unary(op, a) => {
            let a = link_expr(alloc, a, starts)?;
            Ok(unary(alloc, *op, a)?)
        }
        Expr::Binary(op, a, b) => {
            let a = link_expr(alloc, a, starts)?;
            let b = link_expr(alloc, b, starts)?;
            Ok(binary(alloc, *op, a, b)?)
        }
        Expr::Conditional(c, a, b) => {
            let c = link_expr(alloc, c, starts)?;
            let a = link_expr(alloc, a, starts)?;
            let b = link_expr(alloc, b, starts)?;
            let chosen = conditional(alloc, c, a, b)?;
            Ok(chosen)
        }
        Expr::Concatenation(parts) => {
            let parts = link_parts(alloc, parts, starts)?;
            Ok(Expr::Concatenation(Box::new(alloc, parts)?))
        }
    }
}

// Without a recursion over the parts: there may be any number.
#[cycle(expressions)]
fn link_parts<P: Part>(
    alloc: Global,
    parts: &Parts<Name<P>>,
    starts: &Starts,
) -> Result<Parts<Net>, LinkError>
    ensures linked { IfOk result (λ r. trees_of r ≡ rename_parts (resolve_in P.place starts.now) (trees_of parts.now)) }
    ensures range { Tells result (trees_in_range (rename_parts (resolve_in P.place starts.now) (trees_of parts.now))) }
{
    let mut prefix = Vec::new(alloc);
    let mut left = parts;
    while let Parts::More(part, more) = left {
        prefix.push(link_expr(alloc, part, starts)?)?;
        left = more;
    }
    match left {
        Parts::Last(last) => {
            let last = link_expr(alloc, last, starts)?;
            Ok(build::parts(alloc, prefix, last)?)
        }
        Parts::More(..) => unreachable!(),
    }
}

/// A right side by the nets of the design.
pub(crate) fn link_right<P: Part>(
    alloc: Global,
    right: &Right<Name<P>>,
    starts: &Starts,
) -> Result<Right<Net>, LinkError>
    ensures linked { IfOk result (λ r. right_of r ≡ rename_right (resolve_in P.place starts.now) (right_of right.now)) }
    ensures range { Tells result (right_in_range (rename_right (resolve_in P.place starts.now) (right_of right.now))) }
{
    match right {
        Right::Plain(e) => Ok(Right::Plain(link_expr(alloc, e, starts)?)),
        Right::Quotient(a, b) => {
            let a = resolve(*a, starts)?;
            let b = resolve(*b, starts)?;
            Ok(Right::Quotient(a, b))
        }
        Right::Remainder(a, b) => {
            let a = resolve(*a, starts)?;
            let b = resolve(*b, starts)?;
            Ok(Right::Remainder(a, b))
        }
    }
}

/// A statement by the nets of the design, of a part whose registers and memories begin so.
#[cycle(statements)]
pub(crate) fn link_stmt<P: Part>(
    alloc: Global,
    stmt: &Stmt<Name<P>>,
    starts: &Starts,
    registers: u32,
    memories: u32,
) -> Result<Stmt<Net>, LinkError>
    ensures linked { IfOk result (λ r. statement_of r ≡ rename_statement (resolve_in P.place starts.now) registers memories (statement_of stmt.now)) }
    ensures range { Tells result (statement_in_range (rename_statement (resolve_in P.place starts.now) registers memories (statement_of stmt.now))) }
{
    match stmt {
        Stmt::Block(more) => {
            let more = link_stmts(alloc, more, starts, registers, memories)?;
            Ok(block(alloc, more)?)
        }
        Stmt::If(c, a) => {
            let c = link_expr(alloc, c, starts)?;
            let a = link_stmt(alloc, a, starts, registers, memories)?;
            Ok(when(alloc, c, a)?)
        }
        Stmt::IfElse(c, a, b) => {
            let c = link_expr(alloc, c, starts)?;
            let a = link_stmt(alloc, a, starts, registers, memories)?;
            let b = link_stmt(alloc, b, starts, registers, memories)?;
            Ok(when_else(alloc, c, a, b)?)
        }
        Stmt::Set(k, e) => {
            let e = link_expr(alloc, e, starts)?;
            Ok(Stmt::Set(behind(registers, *k)?, e))
        }
        Stmt::Store(k, i, e) => {
            let i = link_expr(alloc, i, starts)?;
            let e = link_expr(alloc, e, starts)?;
            Ok(Stmt::Store(behind(memories, *k)?, i, e))
        }
    }
}

// Without a recursion over the statements: there may be any number.
#[cycle(statements)]
fn link_stmts<P: Part>(
    alloc: Global,
    stmts: &Stmts<Name<P>>,
    starts: &Starts,
    registers: u32,
    memories: u32,
) -> Result<Stmts<Net>, LinkError>
    ensures linked { IfOk result (λ r. statements_of r ≡ rename_statements (resolve_in P.place starts.now) registers memories (statements_of stmts.now)) }
    ensures range { Tells result (statements_in_range (rename_statements (resolve_in P.place starts.now) registers memories (statements_of stmts.now))) }
{
    let mut prefix = Vec::new(alloc);
    let mut left = stmts;
    while let Stmts::Then(first, more) = left {
        prefix.push(link_stmt(alloc, first, starts, registers, memories)?)?;
        left = more;
    }
    Ok(build::statements(alloc, prefix)?)
}
