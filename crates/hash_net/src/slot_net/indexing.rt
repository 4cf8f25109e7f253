//! Where an index is found in an array.

ghost use Rattle.std.specs.Prelude.{ℕ, List, ◌≡◌, ◌+◌, ◌*◌, ◌^◌, ◌<◌, ◌≤◌, All, length, IfOk};
ghost use Rattle.net_core.specs.View.{tree_of};
ghost use Rattle.overlay_net.specs.hazard_core.declared.slot.Slot.{Slot};
ghost use Rattle.overlay_net.specs.hazard_core.StageValues.{slot_pointer};
ghost use Rattle.overlay_net.specs.hazard_core.Tabled.{IsTable};
ghost use Rattle.overlay_net.specs.xdp_maps.Contents.{IsWithinLimits};
ghost use Rattle.overlay_net.specs.xdp_maps.declared.decl.MapKind.TheVariants.{Array};
ghost use Rattle.overlay_net.specs.SiteOperands.Pointers.{pointer_number};
ghost use Rattle.cell_nets.specs.Operands.{IsOperand, IsAvailable, IsWide, number_in};
ghost use Rattle.cell_nets.specs.Parts.{IsPart};
ghost use Rattle.cell_nets.specs.Wires.{wires_of, HasBits, Gives};
ghost use Rattle.hash_net.specs.SlotNet.Choosing.{indexed_pointer};
ghost use Rattle.hash_net.specs.SlotNet.Slots.{HoldsKey};

use block_core::block::BlockWire;
use block_core::name::Name;
use cell_nets::cell_core::xdp_state::xdp_maps::decl::MapDecl;
use cell_nets::operand::Operand;
use cell_nets::slice::{beside, slice};
use cell_nets::wires::add_wire;
use net_core::build::{binary, conditional, constant};
use net_core::tree::{Expr, Op};
use std::alloc::{AllocError, Global};

// The number of the pointer to the slot of an index, 0 where there are no more.
fn pointer<N: Copy>(
    alloc: Global,
    cap: u32,
    index: Operand<N>,
    bits: u8,
) -> Result<Expr<N>, AllocError>
    requires operand { IsOperand index }
    requires some { 3 ≤ bits }
    requires most { bits ≤ 34 }
    ensures { (ins : List (Operand N)) → IsAvailable ins index → IfOk result (λ e. IsPart ins 5 bits (λ v. indexed_pointer cap bits (number_in v index)) (tree_of e)) }
{
    let number = slice(alloc, index, 0, 32)?;
    let inside = binary(alloc, Op::Less, number, constant(32, u64::from(cap)))?;
    let low = slice(alloc, index, 0, bits - 2)?;
    let there = beside(alloc, low, constant(2, 1))?;
    let e = conditional(alloc, inside, there, constant(bits, 0))?;
    Ok(e)
}

/// The number of the pointer to the slot of an array that is used under a key, 0 where the array has no such index.
///
/// Of the key the four bytes of an index count.
pub fn index_pointer<P: Copy>(
    alloc: Global,
    wires: &mut Vec<BlockWire<Name<P>>>,
    part: P,
    decl: &MapDecl,
    key: &[Operand<Name<P>>],
    bits: u8,
) -> Result<Operand<Name<P>>, AllocError>
    requires kind { decl.now.kind ≡ Array }
    requires limits { IsWithinLimits decl.now }
    requires words { 1 ≤ length key.now }
    requires key { All IsOperand key.now }
    requires room { 4 * decl.now.cap + 1 < 2 ^ bits }
    requires some { 3 ≤ bits }
    requires most { bits ≤ 34 }
    ensures operand { IfOk result IsOperand }
    ensures bits { IfOk result (HasBits bits) }
    ensures gives { (table : List Slot) (bytes : List ℕ) → IsTable decl.now table → IfOk result (Gives part (wires_of wires.old.items) (wires_of wires.new.items) key.now (λ v. HoldsKey v decl.now key.now bytes) (λ v. pointer_number (slot_pointer table bytes)) bits) }
{
    let e = pointer(alloc, decl.cap, key[0], bits)?;
    let out = add_wire(wires, part, bits, e)?;
    Ok(out)
}
