//! Statements without those that set a register which a later statement sets again: the last one counts.

ghost use Rattle.std.specs.Prelude.{◌≡◌, ◌⊎◌, true, ℕ, IfOk, IfSome, map, nat_eq};
ghost use Rattle.std.specs.List.{list_any};
ghost use Rattle.net_core.specs.declared.tree.Net.{Net};
ghost use Rattle.net_core.specs.Nets.{Tree, SSet};
ghost use Rattle.net_core.specs.View.{statement_of, statements_of};
ghost use Rattle.net_core.specs.Value.{Env};
ghost use Rattle.net_core.specs.Clock.{Stored, done, all_done, edge};
ghost use Rattle.net_optimize.specs.SimpleLogic.Lost.{AreOverwritten};

use net_core::build::then;
use net_core::tree::{Net, Stmt, Stmts};
use std::alloc::{AllocError, Global};
use std::collections::HashSet;

// The register that a statement sets, under no condition.
fn register_set(stmt: &Stmt<Net>) -> Option<u32>
    ensures { IfSome result (λ k. (e : Tree Net) × (statement_of stmt.now ≡ SSet k e)) }
{
    match stmt {
        Stmt::Set(k, _) => Some(*k),
        _ => None,
    }
}

// Whether a register is among these.
fn has(registers: &HashSet<u32>, k: u32) -> bool
    ensures { result ≡ list_any (nat_eq k) registers.now.keys }
{
    registers.contains(&k)
}

// One register more.
fn add(registers: &mut HashSet<u32>, k: u32) -> Result<(), AllocError>
    ensures { IfOk result (λ u. (q : ℕ) → list_any (nat_eq q) registers.new.keys ≡ true → (k ≡ q) ⊎ (list_any (nat_eq q) registers.old.keys ≡ true)) }
{
    let _ = registers.insert(k)?;
    Ok(())
}

// A statement in front of others, if these leave anything of it: they set some registers under no condition, which are known.
#[tactic(auto, using(crate::proofs::SimpleLogic::LostLemmas::overwritten_behind, crate::proofs::SimpleLogic::LostLemmas::overwritten_set))]
fn in_front(
    alloc: Global,
    stmt: Stmt<Net>,
    later: Stmts<Net>,
    registers: &mut HashSet<u32>,
) -> Result<Stmts<Net>, AllocError>
    requires { AreOverwritten (statements_of later) registers.old.keys }
    ensures done { IfOk result (λ r. (v : Env Net) (s : Stored) → all_done v (statements_of r) s ≡ all_done v (statements_of later) (done v (statement_of stmt) s)) }
    ensures overwritten { IfOk result (λ r. AreOverwritten (statements_of r) registers.new.keys) }
{
    let Some(k) = register_set(&stmt) else {
        return then(alloc, stmt, later);
    };
    if has(registers, k) {
        return Ok(later);
    }
    add(registers, k)?;
    then(alloc, stmt, later)
}

/// Statements that together do the same as these, one after another. Goes over them once, from the last one on.
pub(crate) fn without_lost(
    alloc: Global,
    mut prefix: Vec<Stmt<Net>>,
) -> Result<Stmts<Net>, AllocError>
    ensures { IfOk result (λ r. (v : Env Net) (s : Stored) → all_done v (statements_of r) s ≡ edge v (map statement_of prefix.items) s) }
{
    let mut registers = HashSet::new(alloc);
    let mut list = Stmts::End;
    while let Some(last) = prefix.pop() {
        list = in_front(alloc, last, list, &mut registers)?;
    }
    Ok(list)
}
