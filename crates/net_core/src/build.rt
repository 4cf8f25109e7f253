//! Trees and statements from their parts.

ghost use Rattle.std.specs.Prelude.{◌≡◌, IfOk, map};
ghost use Rattle.net_core.specs.View.{tree_of, trees_of, statement_of, statements_of};
ghost use Rattle.net_core.specs.Chains.{parts_before, statements_before};
ghost use Rattle.net_core.specs.Value.{word};
ghost use Rattle.net_core.specs.Nets.{TConst, TMemoryWord, TUnary, TBinary, TConditional, TLast, SIf, SIfElse, SBlock, SThen, SEnd};

use crate::tree::{Expr, Op, Parts, Stmt, Stmts, UnaryOp, Word};
use std::alloc::{AllocError, Global};

/// A constant of a width.
pub fn constant<N: Drop>(width: u8, value: u64) -> Expr<N>
    ensures { tree_of result ≡ TConst (word width value) }
{
    Expr::Const(Word { width, value })
}

/// The word of a memory at an index.
pub fn memory_word<N: Drop>(alloc: Global, memory: N, index: Expr<N>) -> Result<Expr<N>, AllocError>
    ensures { IfOk result (λ e. tree_of e ≡ TMemoryWord memory (tree_of index)) }
{
    Ok(Expr::MemoryWord(memory, Box::new(alloc, index)?))
}

/// An operator before its operand.
pub fn unary<N: Drop>(alloc: Global, unary_op: UnaryOp, a: Expr<N>) -> Result<Expr<N>, AllocError>
    ensures { IfOk result (λ e. tree_of e ≡ TUnary unary_op (tree_of a)) }
{
    Ok(Expr::Unary(unary_op, Box::new(alloc, a)?))
}

/// An operator between two operands.
pub fn binary<N: Drop>(alloc: Global, op: Op, a: Expr<N>, b: Expr<N>) -> Result<Expr<N>, AllocError>
    ensures { IfOk result (λ e. tree_of e ≡ TBinary op (tree_of a) (tree_of b)) }
{
    let a = Box::new(alloc, a)?;
    let b = Box::new(alloc, b)?;
    Ok(Expr::Binary(op, a, b))
}

/// The first of two values where the condition is 1, else the second.
pub fn conditional<N: Drop>(
    alloc: Global,
    condition: Expr<N>,
    a: Expr<N>,
    b: Expr<N>,
) -> Result<Expr<N>, AllocError>
    ensures { IfOk result (λ e. tree_of e ≡ TConditional (tree_of condition) (tree_of a) (tree_of b)) }
{
    let condition = Box::new(alloc, condition)?;
    let a = Box::new(alloc, a)?;
    let b = Box::new(alloc, b)?;
    Ok(Expr::Conditional(condition, a, b))
}

/// A statement where the condition is 1.
pub fn when<N: Drop>(
    alloc: Global,
    condition: Expr<N>,
    body: Stmt<N>,
) -> Result<Stmt<N>, AllocError>
    ensures { IfOk result (λ s. statement_of s ≡ SIf (tree_of condition) (statement_of body)) }
{
    Ok(Stmt::If(condition, Box::new(alloc, body)?))
}

/// The first statement where the condition is 1, else the second.
pub fn when_else<N: Drop>(
    alloc: Global,
    condition: Expr<N>,
    first: Stmt<N>,
    second: Stmt<N>,
) -> Result<Stmt<N>, AllocError>
    ensures { IfOk result (λ s. statement_of s ≡ SIfElse (tree_of condition) (statement_of first) (statement_of second)) }
{
    let first = Box::new(alloc, first)?;
    let second = Box::new(alloc, second)?;
    Ok(Stmt::IfElse(condition, first, second))
}

/// A statement in front of others.
pub fn then<N: Drop>(alloc: Global, first: Stmt<N>, rest: Stmts<N>) -> Result<Stmts<N>, AllocError>
    ensures { IfOk result (λ s. statements_of s ≡ SThen (statement_of first) (statements_of rest)) }
{
    Ok(Stmts::Then(first, Box::new(alloc, rest)?))
}

/// The parts of a concatenation: these, and a last one.
pub fn parts<N: Drop>(
    alloc: Global,
    mut prefix: Vec<Expr<N>>,
    last: Expr<N>,
) -> Result<Parts<N>, AllocError>
    ensures { IfOk result (λ ps. trees_of ps ≡ parts_before (map tree_of prefix.items) (TLast (tree_of last))) }
{
    let mut list = Parts::Last(last);
    while let Some(part) = prefix.pop() {
        list = Parts::More(part, Box::new(alloc, list)?);
    }
    Ok(list)
}

/// Statements, one after another.
pub fn statements<N: Drop>(alloc: Global, mut prefix: Vec<Stmt<N>>) -> Result<Stmts<N>, AllocError>
    ensures { IfOk result (λ more. statements_of more ≡ statements_before (map statement_of prefix.items) SEnd) }
{
    let mut list = Stmts::End;
    while let Some(first) = prefix.pop() {
        list = then(alloc, first, list)?;
    }
    Ok(list)
}

/// The statements between `begin` and `end`.
pub fn block<N: Drop>(alloc: Global, statements: Stmts<N>) -> Result<Stmt<N>, AllocError>
    ensures { IfOk result (λ s. statement_of s ≡ SBlock (statements_of statements)) }
{
    Ok(Stmt::Block(Box::new(alloc, statements)?))
}
