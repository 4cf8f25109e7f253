//! A word of an entry, over the packet's earlier operations.

ghost use Rattle.std.specs.Prelude.{ℕ, List, [], ◌∷◌, ◌≡◌, ◌≤◌, All, IfOk};
ghost use Rattle.hazard_core.specs.xdp_maps.Contents.{IsBytes};
ghost use Rattle.hazard_core.specs.cell_core.Sites.{ProgramView};
ghost use Rattle.hazard_core.specs.Commits.{word_at};
ghost use Rattle.hazard_core.specs.StageValues.{StageValues};
ghost use Rattle.hazard_core.specs.declared.pointer.Pointer.{Pointer};
ghost use Rattle.hazard_core.specs.Overlay.{value_over, value_under, entry_value};
ghost use Rattle.hazard_core.specs.Tables.{TableState, decl_of, table_at};
ghost use Rattle.cell_nets.specs.Operands.{IsOperand, number_in};
ghost use Rattle.cell_nets.specs.Wires.{wires_of, HasBits, Gives};
ghost use Rattle.overlay_net.specs.SiteOperands.Pointers.{pointer_number};
ghost use Rattle.overlay_net.specs.ValueNet.Pendings.{taken_of, all_taken, IsFitting, IsOf, AreOf, ShowsPending, ShowPendings, HasValue, ShowsEntry};

use crate::site_operands::Pending;
use crate::value_net::following::word_after;
use crate::value_net::operating::{choose, pair};
use block_core::block::BlockWire;
use block_core::name::Name;
use cell_nets::cell_core::operator::Operator;
use cell_nets::cell_core::xdp_state::xdp_maps::decl::MapDecl;
use cell_nets::operand::Operand;
use cell_nets::wires::cut;
use std::alloc::{AllocError, Global};

/// A word over an earlier operation, where that wrote through the same pointer.
fn word_over<P: Copy>(
    alloc: Global,
    wires: &mut Vec<BlockWire<Name<P>>>,
    part: P,
    decl: &MapDecl,
    pending: &Pending<'_, Name<P>>,
    under: Operand<Name<P>>,
    w: u32,
    old: Operand<Name<P>>,
) -> Result<Operand<Name<P>>, AllocError>
    requires fitting { IsFitting decl.now pending.now }
    requires few { decl.now.value ≤ 64 }
    requires under { IsOperand under }
    requires old { IsOperand old }
    requires word { HasBits 64 old }
    ensures operand { IfOk result IsOperand }
    ensures bits { IfOk result (HasBits 64) }
    ensures gives { (p : ProgramView) (t : TableState) (h : StageValues) (m i : ℕ) (at : Pointer) (value : List ℕ) → IsOf p m i pending.now → decl_of t.decls m ≡ decl.now → IsBytes decl.now.value value
        → IfOk result (Gives part (wires_of wires.old.items) (wires_of wires.new.items) (old ∷ under ∷ taken_of pending.now)
        (λ v. (number_in v old ≡ word_at value w) × (number_in v under ≡ pointer_number at) × ShowsPending v p t h i pending.now)
        (λ v. word_at (value_over p t h at value i) w) 64) }
{
    let new = word_after(alloc, wires, part, pending.act, decl, pending.nets, w, old)?;
    let same = pair(
        alloc,
        wires,
        part,
        Operator::Equal,
        pending.written,
        under,
        1,
    )?;
    let over = pair(alloc, wires, part, Operator::And, pending.writes, same, 1)?;
    let out = choose(alloc, wires, part, over, new, old, 0, 64)?;
    Ok(out)
}

/// A word of the table under a pointer; an entry that is to be made begins with zeros.
fn first_word<P: Copy>(
    alloc: Global,
    wires: &mut Vec<BlockWire<Name<P>>>,
    part: P,
    under: Operand<Name<P>>,
    first: Operand<Name<P>>,
) -> Result<Operand<Name<P>>, AllocError>
    requires under { IsOperand under }
    requires first { IsOperand first }
    ensures operand { IfOk result IsOperand }
    ensures bits { IfOk result (HasBits 64) }
    ensures gives { (t : TableState) (m w : ℕ) (at : Pointer) → IfOk result (Gives part (wires_of wires.old.items) (wires_of wires.new.items) (under ∷ first ∷ [])
        (λ v. ShowsEntry v t m w at under first) (λ v. word_at (value_under (decl_of t.decls m) (table_at t m) at) w) 64) }
{
    let in_slot = cut(alloc, wires, part, under, 0, 1)?;
    let out = choose(alloc, wires, part, in_slot, first, Operand::Known(0), 0, 64)?;
    Ok(out)
}

/// A word of the entry under a pointer, over the packet's earlier operations on its map.
pub fn entry_word<P: Copy>(
    alloc: Global,
    wires: &mut Vec<BlockWire<Name<P>>>,
    part: P,
    decl: &MapDecl,
    pendings: &[Pending<'_, Name<P>>],
    under: Operand<Name<P>>,
    first: Operand<Name<P>>,
    w: u32,
) -> Result<Operand<Name<P>>, AllocError>
    requires fitting { All (IsFitting decl.now) pendings.now }
    requires few { decl.now.value ≤ 64 }
    requires under { IsOperand under }
    requires first { IsOperand first }
    ensures operand { IfOk result IsOperand }
    ensures bits { IfOk result (HasBits 64) }
    ensures gives { (p : ProgramView) (t : TableState) (h : StageValues) (before : List ℕ) (m : ℕ) (at : Pointer) → AreOf p m before pendings.now → decl_of t.decls m ≡ decl.now → HasValue t m at
        → IfOk result (Gives part (wires_of wires.old.items) (wires_of wires.new.items) (under ∷ first ∷ all_taken pendings.now)
        (λ v. ShowsEntry v t m w at under first × ShowPendings v p t h before pendings.now)
        (λ v. word_at (entry_value p t h before m at) w) 64) }
{
    let mut word = first_word(alloc, wires, part, under, first)?;
    for pending in pendings {
        word = word_over(alloc, wires, part, decl, pending, under, w, word)?;
    }
    Ok(word)
}
