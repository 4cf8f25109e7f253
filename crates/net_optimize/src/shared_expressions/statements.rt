//! Outputs and statements by the new numbers of wires.

ghost use Rattle.std.specs.Prelude.{◌≡◌, IfOk, map};
ghost use Rattle.net_core.specs.declared.tree.Net.{Net};
ghost use Rattle.net_core.specs.View.{assign_of, statement_of, statements_of, wire_of};
ghost use Rattle.net_core.specs.Value.{Env};
ghost use Rattle.net_core.specs.Clock.{Stored, done, all_done, edge};
ghost use Rattle.net_optimize.specs.SharedExpressions.Standing.{Stand, AreShown};

use crate::making::{block_of, set_of, store_of, when_else_of, when_of};
use crate::shared_expressions::rewriting::rewritten;
use crate::shared_expressions::table::Table;
use net_core::design::Assign;
use net_core::tree::{Net, Stmt, Stmts};
use std::alloc::{AllocError, Global};

/// What outputs show.
pub(crate) fn rewritten_assigns(
    alloc: Global,
    table: &Table,
    assigns: &[Assign],
) -> Result<Vec<Assign>, AllocError>
    ensures { IfOk result (λ r. (v u : Env Net) → Stand table.now.numbers.items (map wire_of table.now.wires.items) v u → AreShown v u (map assign_of assigns.now) (map assign_of r.items)) }
{
    let mut all = Vec::new(alloc);
    for assign in assigns {
        let value = rewritten(alloc, table, table.wires.len(), &assign.value)?;
        all.push(Assign {
            port: assign.port,
            value,
        })?;
    }
    Ok(all)
}

// A statement that does the same.
#[cycle(statements)]
fn rewritten_stmt(alloc: Global, table: &Table, stmt: &Stmt<Net>) -> Result<Stmt<Net>, AllocError>
    ensures { (v u : Env Net) (s : Stored) → Stand table.now.numbers.items (map wire_of table.now.wires.items) v u → IfOk result (λ r. done v (statement_of r) s ≡ done u (statement_of stmt.now) s) }
{
    let limit = table.wires.len();
    match stmt {
        Stmt::Block(more) => block_of(alloc, rewritten_stmts(alloc, table, more)),
        Stmt::If(c, a) => {
            let c = rewritten(alloc, table, limit, c);
            when_of(alloc, c, rewritten_stmt(alloc, table, a))
        }
        Stmt::IfElse(c, a, b) => {
            let c = rewritten(alloc, table, limit, c);
            let a = rewritten_stmt(alloc, table, a);
            when_else_of(alloc, c, a, rewritten_stmt(alloc, table, b))
        }
        Stmt::Set(k, e) => set_of(*k, rewritten(alloc, table, limit, e)),
        Stmt::Store(m, i, e) => {
            let i = rewritten(alloc, table, limit, i);
            store_of(*m, i, rewritten(alloc, table, limit, e))
        }
    }
}

// Without a recursion over the statements: there may be any number.
#[cycle(statements)]
fn rewritten_stmts(
    alloc: Global,
    table: &Table,
    stmts: &Stmts<Net>,
) -> Result<Vec<Stmt<Net>>, AllocError>
    ensures { (v u : Env Net) (s : Stored) → Stand table.now.numbers.items (map wire_of table.now.wires.items) v u → IfOk result (λ r. edge v (map statement_of r.items) s ≡ all_done u (statements_of stmts.now) s) }
{
    let mut all = Vec::new(alloc);
    let mut left = stmts;
    while let Stmts::Then(first, more) = left {
        all.push(rewritten_stmt(alloc, table, first)?)?;
        left = more;
    }
    Ok(all)
}

/// Always blocks that do the same.
pub(crate) fn rewritten_always(
    alloc: Global,
    table: &Table,
    always: &[Stmt<Net>],
) -> Result<Vec<Stmt<Net>>, AllocError>
    ensures { IfOk result (λ r. (v u : Env Net) (s : Stored) → Stand table.now.numbers.items (map wire_of table.now.wires.items) v u → edge v (map statement_of r.items) s ≡ edge u (map statement_of always.now) s) }
{
    let mut all = Vec::new(alloc);
    for stmt in always {
        all.push(rewritten_stmt(alloc, table, stmt)?)?;
    }
    Ok(all)
}
