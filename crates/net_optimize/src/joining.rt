//! Statements, one after another, of which neighbours under one condition are one.

ghost use Rattle.std.specs.Prelude.{◌≡◌, ◌==◌, if◌then◌else◌, IfOk, map};
ghost use Rattle.net_core.specs.declared.tree.Net.{Net};
ghost use Rattle.net_core.specs.declared.tree.Word.{Word};
ghost use Rattle.net_core.specs.View.{tree_of, statement_of};
ghost use Rattle.net_core.specs.Value.{Env, value};
ghost use Rattle.net_core.specs.Clock.{Stored, done, edge};
ghost use Rattle.net_optimize.specs.Lists.{guarded, joined_done};

use net_core::build::{block, statements, when};
use net_core::net_trees::equal::is_same;
use net_core::tree::{Expr, Net, Stmt};
use std::alloc::{AllocError, Global};

/// Statements under a condition.
#[derive(Drop)]
pub(crate) struct Guarded {
    pub(crate) condition: Expr<Net>,
    pub(crate) body: Vec<Stmt<Net>>,
}

/// Statements, one after another. There may be more to come under the condition of the last ones.
#[derive(Drop)]
pub(crate) struct Joined {
    pub(crate) first: Vec<Stmt<Net>>,
    pub(crate) last: Option<Guarded>,
}

/// No statements.
pub(crate) fn none(alloc: Global) -> Joined
    ensures { (v : Env Net) (s : Stored) → joined_done v result s ≡ s }
{
    Joined {
        first: Vec::new(alloc),
        last: None,
    }
}

// These statements as one.
fn one(alloc: Global, body: Vec<Stmt<Net>>) -> Result<Stmt<Net>, AllocError>
    ensures { IfOk result (λ r. (v : Env Net) (s : Stored) → done v (statement_of r) s ≡ edge v (map statement_of body.items) s) }
{
    let all = statements(alloc, body)?;
    let whole = block(alloc, all)?;
    Ok(whole)
}

// These statements under a condition. A single one needs no block.
fn under(
    alloc: Global,
    condition: Expr<Net>,
    mut body: Vec<Stmt<Net>>,
) -> Result<Stmt<Net>, AllocError>
    ensures { IfOk result (λ r. (v : Env Net) (s : Stored) → done v (statement_of r) s ≡ guarded v (tree_of condition) (map statement_of body.items) s) }
{
    if body.len() == 1
        && let Some(only) = body.pop()
    {
        let short = when(alloc, condition, only)?;
        return Ok(short);
    }
    let all = one(alloc, body)?;
    let whole = when(alloc, condition, all)?;
    Ok(whole)
}

/// All of the statements.
pub(crate) fn closed(alloc: Global, list: Joined) -> Result<Vec<Stmt<Net>>, AllocError>
    ensures { IfOk result (λ r. (v : Env Net) (s : Stored) → edge v (map statement_of r.items) s ≡ joined_done v list s) }
{
    let Joined { first, last } = list;
    let mut all = first;
    if let Some(guarded) = last {
        let last = under(alloc, guarded.condition, guarded.body)?;
        all.push(last)?;
        return Ok(all);
    }
    Ok(all)
}

/// One more statement.
pub(crate) fn with_statement(
    alloc: Global,
    list: Joined,
    stmt: Stmt<Net>,
) -> Result<Joined, AllocError>
    ensures { IfOk result (λ r. (v : Env Net) (s : Stored) → joined_done v r s ≡ done v (statement_of stmt) (joined_done v list s)) }
{
    let mut first = closed(alloc, list)?;
    first.push(stmt)?;
    Ok(Joined { first, last: None })
}

// More statements under a condition.
fn with_guarded(
    alloc: Global,
    list: Joined,
    condition: Expr<Net>,
    mut body: Vec<Stmt<Net>>,
) -> Result<Joined, AllocError>
    ensures { IfOk result (λ r. (v : Env Net) (s : Stored) → joined_done v r s ≡ guarded v (tree_of condition) (map statement_of body.items) (joined_done v list s)) }
{
    let Joined { first, last } = list;
    if let Some(guarded) = last {
        if is_same(&guarded.condition, &condition) {
            let mut all = guarded.body;
            all.append(&mut body)?;
            let last = Guarded {
                condition,
                body: all,
            };
            return Ok(Joined {
                first,
                last: Some(last),
            });
        }
        let mut first = first;
        let before = under(alloc, guarded.condition, guarded.body)?;
        first.push(before)?;
        let last = Guarded { condition, body };
        return Ok(Joined {
            first,
            last: Some(last),
        });
    }
    let last = Guarded { condition, body };
    Ok(Joined {
        first,
        last: Some(last),
    })
}

// ---- the same, where making a part may have failed

/// Statements under a condition.
pub(crate) fn under_of(
    alloc: Global,
    condition: Result<Expr<Net>, AllocError>,
    body: Result<Vec<Stmt<Net>>, AllocError>,
) -> Result<Stmt<Net>, AllocError>
    ensures { (v : Env Net) (x : Word) (s t : Stored) → IfOk condition (λ e. value v (tree_of e) ≡ x) → IfOk body (λ xs. edge v (map statement_of xs.items) s ≡ t) → IfOk result (λ r. done v (statement_of r) s ≡ (if x.value == 0 then s else t)) }
{
    let condition = condition?;
    let body = body?;
    under(alloc, condition, body)
}

/// All of the statements.
pub(crate) fn closed_of(
    alloc: Global,
    list: Result<Joined, AllocError>,
) -> Result<Vec<Stmt<Net>>, AllocError>
    ensures { (v : Env Net) (s t : Stored) → IfOk list (λ j. joined_done v j s ≡ t) → IfOk result (λ r. edge v (map statement_of r.items) s ≡ t) }
{
    let list = list?;
    closed(alloc, list)
}

/// One more statement.
pub(crate) fn with_statement_of(
    alloc: Global,
    list: Joined,
    stmt: Result<Stmt<Net>, AllocError>,
) -> Result<Joined, AllocError>
    ensures { (v : Env Net) (s t : Stored) → IfOk stmt (λ a. done v (statement_of a) (joined_done v list s) ≡ t) → IfOk result (λ r. joined_done v r s ≡ t) }
{
    let stmt = stmt?;
    with_statement(alloc, list, stmt)
}

/// More statements under a condition.
pub(crate) fn with_guarded_of(
    alloc: Global,
    list: Joined,
    condition: Result<Expr<Net>, AllocError>,
    body: Result<Vec<Stmt<Net>>, AllocError>,
) -> Result<Joined, AllocError>
    ensures { (v : Env Net) (x : Word) (s t : Stored) → IfOk condition (λ e. value v (tree_of e) ≡ x) → IfOk body (λ xs. edge v (map statement_of xs.items) (joined_done v list s) ≡ t) → IfOk result (λ r. joined_done v r s ≡ (if x.value == 0 then joined_done v list s else t)) }
{
    let condition = condition?;
    let body = body?;
    with_guarded(alloc, list, condition, body)
}
