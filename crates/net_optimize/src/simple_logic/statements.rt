//! Outputs and statements whose expressions have fewer operators.

ghost use Rattle.std.specs.Prelude.{◌≡◌, ◌==◌, if◌then◌else◌, IfOk, map};
ghost use Rattle.net_core.specs.declared.tree.Net.{Net};
ghost use Rattle.net_core.specs.declared.tree.Word.{Word};
ghost use Rattle.net_core.specs.View.{assign_of, statement_of, statements_of, tree_of};
ghost use Rattle.net_core.specs.Value.{Env, value};
ghost use Rattle.net_core.specs.Clock.{Stored, done, all_done, edge};
ghost use Rattle.register_rules.specs.NarrowRegisters.Narrow.{Each};
ghost use Rattle.net_optimize.specs.SimpleLogic.Simple.{Hold, IsSameAssign};

use crate::making::{set_of, store_of, when_else_of};
use crate::simple_logic::facts::{Facts, simple};
use crate::simple_logic::lost_sets::without_lost;
use net_core::build::{block, when};
use net_core::design::Assign;
use net_core::tree::{Expr, Net, Stmt, Stmts};
use std::alloc::{AllocError, Global};

/// What outputs show, which is the same.
pub(crate) fn simple_assigns(
    alloc: Global,
    facts: &Facts,
    assigns: &[Assign],
) -> Result<Vec<Assign>, AllocError>
    ensures { IfOk result (λ r. (v : Env Net) → Hold facts.now v → Each (IsSameAssign v) (map assign_of assigns.now) (map assign_of r.items)) }
{
    let mut all = Vec::new(alloc);
    for assign in assigns {
        let value = simple(alloc, facts, &assign.value)?;
        all.push(Assign {
            port: assign.port,
            value,
        })?;
    }
    Ok(all)
}

// A statement under a condition. Under a constant it is the statement itself, or nothing.
fn under(
    alloc: Global,
    condition: Result<Expr<Net>, AllocError>,
    stmt: Result<Stmt<Net>, AllocError>,
) -> Result<Stmt<Net>, AllocError>
    ensures { (v : Env Net) (x : Word) (s t : Stored) → IfOk condition (λ e. value v (tree_of e) ≡ x) → IfOk stmt (λ a. done v (statement_of a) s ≡ t) → IfOk result (λ r. done v (statement_of r) s ≡ (if x.value == 0 then s else t)) }
{
    let condition = condition?;
    let stmt = stmt?;
    if let Expr::Const(word) = condition {
        if word.value == 0 {
            return block(alloc, Stmts::End);
        }
        return Ok(stmt);
    }
    when(alloc, condition, stmt)
}

// Statements without those that are lost, as one.
fn block_of(alloc: Global, all: Result<Vec<Stmt<Net>>, AllocError>) -> Result<Stmt<Net>, AllocError>
    ensures { (v : Env Net) (s t : Stored) → IfOk all (λ xs. edge v (map statement_of xs.items) s ≡ t) → IfOk result (λ r. done v (statement_of r) s ≡ t) }
{
    let all = without_lost(alloc, all?)?;
    block(alloc, all)
}

// A statement that does the same.
#[cycle(statements)]
fn simple_stmt(alloc: Global, facts: &Facts, stmt: &Stmt<Net>) -> Result<Stmt<Net>, AllocError>
    ensures { (v : Env Net) (s : Stored) → Hold facts.now v → IfOk result (λ r. done v (statement_of r) s ≡ done v (statement_of stmt.now) s) }
{
    match stmt {
        Stmt::Block(more) => block_of(alloc, simple_stmts(alloc, facts, more)),
        Stmt::If(c, a) => {
            let c = simple(alloc, facts, c);
            under(alloc, c, simple_stmt(alloc, facts, a))
        }
        Stmt::IfElse(c, a, b) => {
            let c = simple(alloc, facts, c);
            let a = simple_stmt(alloc, facts, a);
            when_else_of(alloc, c, a, simple_stmt(alloc, facts, b))
        }
        Stmt::Set(k, e) => set_of(*k, simple(alloc, facts, e)),
        Stmt::Store(m, i, e) => {
            let i = simple(alloc, facts, i);
            store_of(*m, i, simple(alloc, facts, e))
        }
    }
}

// Without a recursion over the statements: there may be any number.
#[cycle(statements)]
fn simple_stmts(
    alloc: Global,
    facts: &Facts,
    stmts: &Stmts<Net>,
) -> Result<Vec<Stmt<Net>>, AllocError>
    ensures { (v : Env Net) (s : Stored) → Hold facts.now v → IfOk result (λ r. edge v (map statement_of r.items) s ≡ all_done v (statements_of stmts.now) s) }
{
    let mut all = Vec::new(alloc);
    let mut left = stmts;
    while let Stmts::Then(first, more) = left {
        all.push(simple_stmt(alloc, facts, first)?)?;
        left = more;
    }
    Ok(all)
}

/// Always blocks that do the same.
pub(crate) fn simple_always(
    alloc: Global,
    facts: &Facts,
    always: &[Stmt<Net>],
) -> Result<Vec<Stmt<Net>>, AllocError>
    ensures { IfOk result (λ r. (v : Env Net) (s : Stored) → Hold facts.now v → edge v (map statement_of r.items) s ≡ edge v (map statement_of always.now) s) }
{
    let mut all = Vec::new(alloc);
    for stmt in always {
        all.push(simple_stmt(alloc, facts, stmt)?)?;
    }
    Ok(all)
}
