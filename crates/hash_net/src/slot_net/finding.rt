//! Where a key is found among the slots of a hash, and the first free one.

ghost use Rattle.std.specs.Prelude.{ℕ, List, ◌≡◌, ◌+◌, ◌*◌, ◌^◌, ◌<◌, ◌≤◌, ◌++◌, All, length, IfOk};
ghost use Rattle.overlay_net.specs.hazard_core.declared.slot.Slot.{Slot};
ghost use Rattle.overlay_net.specs.hazard_core.Commits.{word_count};
ghost use Rattle.overlay_net.specs.hazard_core.StageValues.{slot_pointer};
ghost use Rattle.overlay_net.specs.hazard_core.Tables.{free_slot};
ghost use Rattle.overlay_net.specs.xdp_maps.declared.decl.MapDecl.{MapDecl};
ghost use Rattle.overlay_net.specs.SiteOperands.Pointers.{pointer_number};
ghost use Rattle.cell_nets.specs.Operands.{IsOperand, IsWide};
ghost use Rattle.cell_nets.specs.Wires.{wires_of, Gives};
ghost use Rattle.hash_net.specs.SlotNet.Slots.{slots_of, operands_of, IsSlot, ShowSlots, HoldsKey, HaveKeys};

use crate::slot_net::choosing::{Numbering, first_of};
use crate::slot_net::slots::SlotNets;
use crate::slot_net::testing::{key_tests, used_tests};
use block_core::block::BlockWire;
use block_core::name::Name;
use cell_nets::cell_core::xdp_state::xdp_maps::decl::MapDecl;
use cell_nets::operand::Operand;
use std::alloc::{AllocError, Global};

/// The number of the pointer to the first slot that is used under a key, 0 where there is none.
///
/// There is a wire for each 30 slots. Of the key the words count that the map declares, and of the last word the bytes that are of the key.
pub fn find_slot<P: Copy>(
    alloc: Global,
    wires: &mut Vec<BlockWire<Name<P>>>,
    part: P,
    decl: &MapDecl,
    slots: &[SlotNets<Name<P>>],
    key: &[Operand<Name<P>>],
    bits: u8,
) -> Result<Operand<Name<P>>, AllocError>
    requires short { decl.now.key ≤ 40 }
    requires slots { All (IsSlot decl.now.key) (slots_of slots.now) }
    requires words { word_count decl.now.key ≤ length key.now }
    requires key { All IsOperand key.now }
    requires most { length slots.now ≤ 65536 }
    requires room { 4 * length slots.now + 1 < 2 ^ bits }
    requires width { IsWide bits }
    ensures { (table : List Slot) (bytes : List ℕ) → HaveKeys decl.now table → IfOk result (Gives part (wires_of wires.old.items) (wires_of wires.new.items) (key.now ++ operands_of (slots_of slots.now)) (λ v. ShowSlots v decl.now table (slots_of slots.now) × HoldsKey v decl.now key.now bytes) (λ v. pointer_number (slot_pointer table bytes)) bits) }
{
    let tests = key_tests(alloc, decl.key, slots, key)?;
    let out = first_of(alloc, wires, part, tests, Numbering::Pointers, 0, bits)?;
    Ok(out)
}

/// The number of the first slot that is not used, or that of slots where there is none. There is a wire for each 30 slots.
pub fn free_slot<P: Copy>(
    alloc: Global,
    wires: &mut Vec<BlockWire<Name<P>>>,
    part: P,
    slots: &[SlotNets<Name<P>>],
    bits: u8,
) -> Result<Operand<Name<P>>, AllocError>
    requires slots { All (λ n. IsOperand n.used) (slots_of slots.now) }
    requires most { length slots.now ≤ 65536 }
    requires room { length slots.now < 2 ^ bits }
    requires width { IsWide bits }
    ensures { (table : List Slot) (d : MapDecl) → IfOk result (Gives part (wires_of wires.old.items) (wires_of wires.new.items) (operands_of (slots_of slots.now)) (λ v. ShowSlots v d table (slots_of slots.now)) (λ v. free_slot table) bits) }
{
    let tests = used_tests(alloc, slots)?;
    let none = slots.len() as u64;
    let out = first_of(alloc, wires, part, tests, Numbering::Slots, none, bits)?;
    Ok(out)
}
