//! Sections of a design in which what is known of wires stands in place of these.

ghost use Rattle.std.specs.Prelude.{◌≡◌, ◌≤◌, true, IfOk, length, map};
ghost use Rattle.net_core.specs.declared.tree.Net.{Net};
ghost use Rattle.net_core.specs.View.{assign_of, statement_of, wire_of};
ghost use Rattle.net_core.specs.Value.{Env};
ghost use Rattle.net_core.specs.Clock.{Stored, done, edge};
ghost use Rattle.design_rules.specs.SolvedWires.Solving.{Solves};
ghost use Rattle.net_optimize.specs.Folding.{AreKnown, AreSameAssigns, AreSameSections, sections_of};
ghost use Rattle.net_optimize.specs.Lists.{joined_done};

use crate::folding::{folded, folded_stmt, with_folded};
use crate::joining::{Joined, closed, none, with_statement_of};
use crate::reads::live_reads;
use crate::wires::folded_wires;
use net_core::design::{Assign, Wire};
use net_core::tree::{Expr, Net, Stmt, Stmts};
use std::alloc::{AllocError, Global};

/// The sections of a design in which wires are read.
#[derive(Drop)]
pub(crate) struct Sections {
    pub(crate) wires: Vec<Wire>,
    pub(crate) assigns: Vec<Assign>,
    pub(crate) always: Vec<Stmt<Net>>,
}

// What outputs show, by what is known of wires.
fn folded_assigns(
    alloc: Global,
    known: &[Option<Expr<Net>>],
    assigns: &[Assign],
) -> Result<Vec<Assign>, AllocError>
    ensures { IfOk result (λ r. (v : Env Net) → AreKnown v known.now → AreSameAssigns v (map assign_of assigns.now) (map assign_of r.items)) }
{
    let mut all = Vec::new(alloc);
    for assign in assigns {
        let value = folded(alloc, known, &assign.value)?;
        all.push(Assign {
            port: assign.port,
            value,
        })?;
    }
    Ok(all)
}

// Whether a statement is one that does nothing.
fn is_idle(stmt: &Stmt<Net>) -> bool
    ensures { result ≡ true → (v : Env Net) (s : Stored) → done v (statement_of stmt.now) s ≡ s }
{
    match stmt {
        Stmt::Block(more) => matches!(**more, Stmts::End),
        _ => false,
    }
}

// Always blocks, and after them one that does the same as this.
fn with_block(
    alloc: Global,
    known: &[Option<Expr<Net>>],
    list: Joined,
    stmt: &Stmt<Net>,
) -> Result<Joined, AllocError>
    ensures { (v : Env Net) (s : Stored) → AreKnown v known.now → IfOk result (λ r. joined_done v r s ≡ done v (statement_of stmt.now) (joined_done v list s)) }
{
    if let Stmt::Block(_) = stmt {
        return with_statement_of(alloc, list, folded_stmt(alloc, known, stmt));
    }
    with_folded(alloc, known, list, stmt)
}

// The only statement of a block, or the statement itself.
fn only(stmt: &Stmt<Net>) -> &Stmt<Net>
    ensures { (v : Env Net) (s : Stored) → done v (statement_of result.now) s ≡ done v (statement_of stmt.now) s }
{
    if let Stmt::Block(more) = stmt
        && let Stmts::Then(only, rest) = &**more
        && let Stmts::End = **rest
    {
        return only;
    }
    stmt
}

// Always blocks, by what is known of wires, and as one where neighbours stand under one condition. One that does nothing is left out.
fn folded_always(
    alloc: Global,
    known: &[Option<Expr<Net>>],
    always: &[Stmt<Net>],
) -> Result<Vec<Stmt<Net>>, AllocError>
    ensures { IfOk result (λ r. (v : Env Net) (s : Stored) → AreKnown v known.now → edge v (map statement_of r.items) s ≡ edge v (map statement_of always.now) s) }
{
    let mut all = none(alloc);
    for stmt in always {
        if !is_idle(stmt) {
            all = with_block(alloc, known, all, only(stmt))?;
        }
    }
    let whole = closed(alloc, all)?;
    Ok(whole)
}

/// Sections that do the same, in which either wires of equal right sides are read as the first of them, or right sides of wires that are
/// read once are moved to where they are read.
pub(crate) fn folded_sections(
    alloc: Global,
    wires: &[Wire],
    assigns: &[Assign],
    always: &[Stmt<Net>],
    moves: bool,
) -> Result<Sections, AllocError>
    requires { length wires.now ≤ 4294967295 }
    ensures count { IfOk result (λ s. length s.wires.items ≡ length wires.now) }
    ensures same { IfOk result (λ s. (v : Env Net) → Solves v 0 (map wire_of wires.now) → AreSameSections v (record { wires = map wire_of wires.now; assigns = map assign_of assigns.now; always = map statement_of always.now }) (sections_of s)) }
{
    let reads = live_reads(alloc, wires, assigns, always)?;
    let folded = folded_wires(alloc, wires, &reads, moves)?;
    let assigns = folded_assigns(alloc, &folded.known, assigns)?;
    let always = folded_always(alloc, &folded.known, always)?;
    Ok(Sections {
        wires: folded.wires,
        assigns,
        always,
    })
}
