//! Statements from their parts, where making a part may have failed: then so has the whole.

ghost use Rattle.std.specs.Prelude.{◌≡◌, ◌==◌, if◌then◌else◌, IfOk, [], map, slice_set};
ghost use Rattle.std.proofs.Common.{get_or};
ghost use Rattle.net_core.specs.declared.tree.Net.{Net};
ghost use Rattle.net_core.specs.declared.tree.Word.{Word};
ghost use Rattle.net_core.specs.Nets.{Tree, SStore};
ghost use Rattle.net_core.specs.View.{tree_of, statement_of};
ghost use Rattle.net_core.specs.Value.{Env, value};
ghost use Rattle.net_core.specs.Clock.{Stored, done, edge};

use net_core::build::{block, statements, when, when_else};
use net_core::tree::{Expr, Net, Stmt};
use std::alloc::{AllocError, Global};

/// A register is set.
pub(crate) fn set_of(k: u32, e: Result<Expr<Net>, AllocError>) -> Result<Stmt<Net>, AllocError>
    ensures { (v : Env Net) (x : Word) (s : Stored) → IfOk e (λ a. value v (tree_of a) ≡ x) → IfOk result (λ r. done v (statement_of r) s ≡ record s { registers = slice_set s.registers k x }) }
{
    let e = e?;
    Ok(Stmt::Set(k, e))
}

/// A word of a memory is set.
pub(crate) fn store_of(
    m: u32,
    i: Result<Expr<Net>, AllocError>,
    e: Result<Expr<Net>, AllocError>,
) -> Result<Stmt<Net>, AllocError>
    ensures done { (v : Env Net) (x y : Word) (s : Stored) → IfOk i (λ a. value v (tree_of a) ≡ x) → IfOk e (λ a. value v (tree_of a) ≡ y) → IfOk result (λ r. done v (statement_of r) s ≡ record s { memories = slice_set s.memories m (slice_set (get_or s.memories m []) x.value y) }) }
    ensures tree { (x y : Tree Net) → IfOk i (λ a. tree_of a ≡ x) → IfOk e (λ a. tree_of a ≡ y) → IfOk result (λ r. statement_of r ≡ SStore m x y) }
{
    let i = i?;
    let e = e?;
    Ok(Stmt::Store(m, i, e))
}

/// A statement where the condition is 1.
pub(crate) fn when_of(
    alloc: Global,
    c: Result<Expr<Net>, AllocError>,
    a: Result<Stmt<Net>, AllocError>,
) -> Result<Stmt<Net>, AllocError>
    ensures { (v : Env Net) (x : Word) (s t : Stored) → IfOk c (λ e. value v (tree_of e) ≡ x) → IfOk a (λ b. done v (statement_of b) s ≡ t) → IfOk result (λ r. done v (statement_of r) s ≡ (if x.value == 0 then s else t)) }
{
    let c = c?;
    let a = a?;
    when(alloc, c, a)
}

/// The first statement where the condition is 1, else the second.
pub(crate) fn when_else_of(
    alloc: Global,
    c: Result<Expr<Net>, AllocError>,
    a: Result<Stmt<Net>, AllocError>,
    b: Result<Stmt<Net>, AllocError>,
) -> Result<Stmt<Net>, AllocError>
    ensures { (v : Env Net) (x : Word) (s t u : Stored) → IfOk c (λ e. value v (tree_of e) ≡ x) → IfOk a (λ d. done v (statement_of d) s ≡ t) → IfOk b (λ d. done v (statement_of d) s ≡ u) → IfOk result (λ r. done v (statement_of r) s ≡ (if x.value == 0 then u else t)) }
{
    let c = c?;
    let a = a?;
    let b = b?;
    when_else(alloc, c, a, b)
}

/// Statements, one after another, as one.
pub(crate) fn block_of(
    alloc: Global,
    all: Result<Vec<Stmt<Net>>, AllocError>,
) -> Result<Stmt<Net>, AllocError>
    ensures { (v : Env Net) (s t : Stored) → IfOk all (λ xs. edge v (map statement_of xs.items) s ≡ t) → IfOk result (λ r. done v (statement_of r) s ≡ t) }
{
    let prefix = all?;
    let more = statements(alloc, prefix)?;
    block(alloc, more)
}
