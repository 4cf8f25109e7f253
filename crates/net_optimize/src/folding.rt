//! Expressions and statements in which what is known of wires stands in place of them.

ghost use Rattle.std.specs.Prelude.{◌≡◌, IfOk, map};
ghost use Rattle.net_core.specs.declared.tree.Net.{Net};
ghost use Rattle.net_core.specs.View.{tree_of, trees_of, right_of, statement_of, statements_of};
ghost use Rattle.net_core.specs.Value.{Env, value, concatenated_parts};
ghost use Rattle.net_core.specs.Clock.{Stored, done, all_done};
ghost use Rattle.net_optimize.specs.Folding.{AreKnown, IsSameRight};
ghost use Rattle.net_optimize.specs.Lists.{all_parts, joined_done};

use crate::concatenation::{whole_of, with_parts};
use crate::joining::{Joined, closed_of, none, under_of, with_guarded_of, with_statement_of};
use crate::making::{block_of, set_of, store_of, when_else_of};
use crate::negation::prefixed_of;
use crate::simple::{chosen_of, joined_of, read, select};
use net_core::tree::{Expr, Net, Parts, Right, Stmt, Stmts};
use net_rules::building::memory_word_of;
use std::alloc::{AllocError, Global};

/// An expression of the same value.
#[cycle(expressions)]
pub(crate) fn folded(
    alloc: Global,
    known: &[Option<Expr<Net>>],
    e: &Expr<Net>,
) -> Result<Expr<Net>, AllocError>
    ensures { (v : Env Net) → AreKnown v known.now → IfOk result (λ r. value v (tree_of r) ≡ value v (tree_of e.now)) }
{
    match e {
        Expr::Const(word) => Ok(Expr::Const(*word)),
        Expr::Read(n) => read(alloc, known, *n),
        Expr::Bit(n, bit) => Ok(select(known, *n, *bit, *bit)),
        Expr::PartSelect(n, high, low) => Ok(select(known, *n, *high, *low)),
        Expr::MemoryWord(m, i) => memory_word_of(alloc, *m, folded(alloc, known, i)),
        Expr::Unary(op, a) => prefixed_of(alloc, *op, folded(alloc, known, a), a),
        Expr::Binary(op, a, b) => {
            let a = folded(alloc, known, a);
            joined_of(alloc, *op, a, folded(alloc, known, b))
        }
        Expr::Conditional(c, a, b) => {
            let c = folded(alloc, known, c);
            let a = folded(alloc, known, a);
            chosen_of(alloc, c, a, folded(alloc, known, b))
        }
        Expr::Concatenation(parts) => whole_of(alloc, folded_parts(alloc, known, parts)),
    }
}

// Without a recursion over the parts: there may be any number.
#[cycle(expressions)]
fn folded_parts(
    alloc: Global,
    known: &[Option<Expr<Net>>],
    parts: &Parts<Net>,
) -> Result<Vec<Expr<Net>>, AllocError>
    ensures { (v : Env Net) → AreKnown v known.now → IfOk result (λ r. all_parts v (map tree_of r.items) ≡ concatenated_parts v (trees_of parts.now)) }
{
    let mut all = Vec::new(alloc);
    let mut left = parts;
    while let Parts::More(part, more) = left {
        let part = folded(alloc, known, part)?;
        all = with_parts(alloc, all, part)?;
        left = more;
    }
    match left {
        Parts::Last(last) => {
            let last = folded(alloc, known, last)?;
            let whole = with_parts(alloc, all, last)?;
            Ok(whole)
        }
        Parts::More(..) => unreachable!(),
    }
}

/// A right side of the same value.
pub(crate) fn folded_right(
    alloc: Global,
    known: &[Option<Expr<Net>>],
    right: &Right<Net>,
) -> Result<Right<Net>, AllocError>
    ensures { (v : Env Net) → AreKnown v known.now → IfOk result (λ r. IsSameRight v (right_of right.now) (right_of r)) }
{
    match right {
        Right::Plain(e) => Ok(Right::Plain(folded(alloc, known, e)?)),
        Right::Quotient(a, b) => Ok(Right::Quotient(*a, *b)),
        Right::Remainder(a, b) => Ok(Right::Remainder(*a, *b)),
    }
}

/// A statement that does the same.
#[cycle(statements)]
pub(crate) fn folded_stmt(
    alloc: Global,
    known: &[Option<Expr<Net>>],
    stmt: &Stmt<Net>,
) -> Result<Stmt<Net>, AllocError>
    ensures { (v : Env Net) (s : Stored) → AreKnown v known.now → IfOk result (λ r. done v (statement_of r) s ≡ done v (statement_of stmt.now) s) }
{
    match stmt {
        Stmt::Block(more) => {
            let all = with_all(alloc, known, none(alloc), more);
            block_of(alloc, closed_of(alloc, all))
        }
        Stmt::If(c, a) => {
            let c = folded(alloc, known, c);
            let body = with_folded(alloc, known, none(alloc), a);
            under_of(alloc, c, closed_of(alloc, body))
        }
        Stmt::IfElse(c, a, b) => {
            let c = folded(alloc, known, c);
            let a = folded_stmt(alloc, known, a);
            when_else_of(alloc, c, a, folded_stmt(alloc, known, b))
        }
        Stmt::Set(k, e) => set_of(*k, folded(alloc, known, e)),
        Stmt::Store(m, i, e) => {
            let i = folded(alloc, known, i);
            store_of(*m, i, folded(alloc, known, e))
        }
    }
}

/// Statements, and after them one that does the same as this, or those of a block by themselves.
#[cycle(statements)]
pub(crate) fn with_folded(
    alloc: Global,
    known: &[Option<Expr<Net>>],
    list: Joined,
    stmt: &Stmt<Net>,
) -> Result<Joined, AllocError>
    ensures { (v : Env Net) (s : Stored) → AreKnown v known.now → IfOk result (λ r. joined_done v r s ≡ done v (statement_of stmt.now) (joined_done v list s)) }
{
    match stmt {
        Stmt::Block(more) => with_all(alloc, known, list, more),
        Stmt::If(c, a) => {
            let c = folded(alloc, known, c);
            let body = with_folded(alloc, known, none(alloc), a);
            with_guarded_of(alloc, list, c, closed_of(alloc, body))
        }
        _ => with_statement_of(alloc, list, folded_stmt(alloc, known, stmt)),
    }
}

// Without a recursion over the statements: there may be any number.
#[cycle(statements)]
fn with_all(
    alloc: Global,
    known: &[Option<Expr<Net>>],
    list: Joined,
    stmts: &Stmts<Net>,
) -> Result<Joined, AllocError>
    ensures { (v : Env Net) (s : Stored) → AreKnown v known.now → IfOk result (λ r. joined_done v r s ≡ all_done v (statements_of stmts.now) (joined_done v list s)) }
{
    let mut all = list;
    let mut left = stmts;
    while let Stmts::Then(first, more) = left {
        all = with_folded(alloc, known, all, first)?;
        left = more;
    }
    Ok(all)
}
