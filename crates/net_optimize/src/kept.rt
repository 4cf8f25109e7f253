//! The sections of a design of which some wires and registers are dropped.

ghost use Rattle.std.specs.Prelude.{◌≡◌, false, IfOk, length, map};
ghost use Rattle.std.proofs.Common.{get_or};
ghost use Rattle.net_core.specs.View.{wire_of, assign_of, statement_of};
ghost use Rattle.net_core.specs.Names.{is_register};
ghost use Rattle.net_core.specs.Clock.{first_words, first_memories};
ghost use Rattle.net_optimize.specs.Renumber.{numbers_of, kept, kept_wires, renumber_assign, renumber_always};

use crate::live::Live;
use crate::renumber::{Numbering, push_busy, renumbered_expr, renumbered_right, renumbered_stmt};
use net_core::design::{Assign, Declared, Wire};
use net_core::tree::{Net, Stmt};
use std::alloc::{AllocError, Global};

/// Which wires have to stay.
pub(crate) fn live_wires(
    alloc: Global,
    wires: &[Wire],
    live: &Live,
) -> Result<Vec<bool>, AllocError>
    ensures { IfOk result (λ keep. length keep.items ≡ length wires.now) }
{
    let mut keep = Vec::new(alloc);
    for i in 0..wires.len() {
        keep.push(live.has_wire(i))?;
    }
    Ok(keep)
}

/// Which registers have to stay.
pub(crate) fn live_registers(
    alloc: Global,
    declared: &[Declared],
    live: &Live,
) -> Result<Vec<bool>, AllocError>
    ensures { IfOk result (λ keep. length keep.items ≡ length (first_words declared.now)) }
{
    let mut keep = Vec::new(alloc);
    for item in declared {
        if let Declared::Register(_) = item {
            keep.push(live.has_register(keep.len()))?;
        }
    }
    Ok(keep)
}

fn is_kept(keep: &[bool], at: usize) -> bool
    ensures { result ≡ get_or keep.now at false }
{
    keep.get(at).copied().unwrap_or(false)
}

/// The wires that are kept, by the new numbers.
pub(crate) fn kept_wires(
    alloc: Global,
    wires: &[Wire],
    keep: &[bool],
    numbers: &Numbering,
) -> Result<Vec<Wire>, AllocError>
    ensures { IfOk result (λ r. map wire_of r.items ≡ kept_wires (numbers_of numbers.now) keep.now (map wire_of wires.now)) }
{
    let mut all = Vec::new(alloc);
    let mut at = 0;
    for wire in wires {
        if is_kept(keep, at) {
            let right = renumbered_right(alloc, &wire.right, numbers)?;
            all.push(Wire {
                width: wire.width,
                right,
            })?;
        }
        at += 1;
    }
    Ok(all)
}

fn is_register(item: &Declared) -> bool
    ensures { result ≡ is_register item.now }
{
    matches!(item, Declared::Register(_))
}

/// What is declared, without registers that are dropped.
pub(crate) fn kept_declared(
    alloc: Global,
    declared: &[Declared],
    keep: &[bool],
) -> Result<Vec<Declared>, AllocError>
    ensures words { IfOk result (λ r. first_words r.items ≡ kept keep.now (first_words declared.now)) }
    ensures memories { IfOk result (λ r. first_memories r.items ≡ first_memories declared.now) }
{
    let mut all = Vec::new(alloc);
    let mut register = 0;
    for item in declared {
        if is_register(item) {
            if is_kept(keep, register) {
                all.push(*item)?;
            }
            register += 1;
        } else {
            all.push(*item)?;
        }
    }
    Ok(all)
}

/// What outputs show, by the new numbers.
pub(crate) fn kept_assigns(
    alloc: Global,
    assigns: &[Assign],
    numbers: &Numbering,
) -> Result<Vec<Assign>, AllocError>
    ensures { IfOk result (λ r. map assign_of r.items ≡ map (renumber_assign (numbers_of numbers.now)) (map assign_of assigns.now)) }
{
    let mut all = Vec::new(alloc);
    for assign in assigns {
        let value = renumbered_expr(alloc, &assign.value, numbers)?;
        all.push(Assign {
            port: assign.port,
            value,
        })?;
    }
    Ok(all)
}

/// The statements of always blocks, by the new numbers. One that does nothing is left out.
pub(crate) fn kept_always(
    alloc: Global,
    always: &[Stmt<Net>],
    numbers: &Numbering,
) -> Result<Vec<Stmt<Net>>, AllocError>
    ensures { IfOk result (λ r. map statement_of r.items ≡ renumber_always (numbers_of numbers.now) (map statement_of always.now)) }
{
    let mut all = Vec::new(alloc);
    for stmt in always {
        let stmt = renumbered_stmt(alloc, stmt, numbers)?;
        push_busy(&mut all, stmt)?;
    }
    Ok(all)
}
