//! The block that shows the slots of a hash: wires alone.

ghost use Rattle.std.specs.Prelude.{◌≡◌, ◌≤◌, ◌^◌, IfOk, map};
ghost use Rattle.std.specs.List.{range_with_len};
ghost use Rattle.block_core.specs.View.{block_of, block_wire_of};
ghost use Rattle.overlay_net.specs.hazard_core.Commits.{word_count};
ghost use Rattle.overlay_net.specs.xdp_maps.Contents.{IsWithinLimits};
ghost use Rattle.hash_net.specs.SlotNet.Shown.{wire_count, per_slot, shown_width, shown_wire, shown_slot, shown_slots, IsSlots};
ghost use Rattle.hash_net.specs.SlotNet.Slots.{slot_operands, slots_of};

use crate::slot_net::slots::SlotNets;
use array_net::words::{word_count, word_width};
use block_core::block::{Block, BlockWire};
use block_core::name::{Name, Part};
use cell_nets::cell_core::xdp_state::xdp_maps::decl::MapDecl;
use cell_nets::operand::Operand;
use frame_net::nets::{held, wire};
use net_core::build::{block, constant};
use net_core::tree::Stmts;
use std::alloc::{AllocError, Global};

// How many wires show a slot.
fn per_slot(decl: &MapDecl) -> u32
    requires { decl.now.key ≤ 40 }
    ensures count { result ≡ per_slot decl.now }
    ensures few { result ≤ 6 }
{
    word_count(decl.key) + 1
}

// How many bits the wire has that shows the used bit of a slot, or a word of its key.
fn shown_width(decl: &MapDecl, k: u32) -> u8
    requires short { decl.now.key ≤ 40 }
    requires there { k ≤ word_count decl.now.key }
    ensures { result ≡ shown_width decl.now k }
{
    if k == 0 {
        return 1;
    }
    word_width(decl.key, k - 1)
}

fn shown_wire<P: Part>(
    alloc: Global,
    of: P,
    decl: &MapDecl,
    bits: u8,
    i: u32,
) -> Result<BlockWire<Name<P>>, AllocError>
    requires { decl.now.key ≤ 40 }
    ensures { IfOk result (λ w. block_wire_of w ≡ shown_wire of decl.now bits i) }
{
    let count = per_slot(decl);
    let index = constant(bits, u64::from(i / count));
    let there = held(alloc, of, i % count, index)?;
    let width = shown_width(decl, i % count);
    Ok(wire(width, there))
}

fn wires<P: Part>(
    alloc: Global,
    of: P,
    decl: &MapDecl,
    bits: u8,
) -> Result<Vec<BlockWire<Name<P>>>, AllocError>
    requires short { decl.now.key ≤ 40 }
    requires few { decl.now.cap ≤ 65536 }
    ensures { IfOk result (λ r. map block_wire_of r.items ≡ map (shown_wire of decl.now bits) (range_with_len 0 (wire_count decl.now))) }
{
    let count = decl.cap * per_slot(decl);
    let mut all = Vec::new(alloc);
    for i in 0..count {
        all.push(shown_wire(alloc, of, decl, bits, i)?)?;
    }
    Ok(all)
}

/// The block that shows the slots of the hash of another part, whose numbers have so many bits: for each a wire with its used bit, and one for each word
/// of its key.
pub fn slots<P: Part>(
    alloc: Global,
    part: P,
    of: P,
    decl: &MapDecl,
    bits: u8,
) -> Result<Block<Name<P>>, AllocError>
    requires limits { IsWithinLimits decl.now }
    requires some { 1 ≤ bits }
    requires most { bits ≤ 16 }
    requires room { decl.now.cap ≤ 2 ^ bits }
    ensures { IfOk result (λ b. IsSlots part of decl.now bits (block_of b)) }
{
    let wires = wires(alloc, of, decl, bits)?;
    let statement = block(alloc, Stmts::End)?;
    Ok(Block {
        registers: Vec::new(alloc),
        memories: Vec::new(alloc),
        wires,
        statement,
    })
}

fn shown_slot<P: Part>(
    alloc: Global,
    part: P,
    decl: &MapDecl,
    n: u32,
) -> Result<SlotNets<Name<P>>, AllocError>
    requires short { decl.now.key ≤ 40 }
    requires few { n ≤ 65535 }
    ensures { IfOk result (λ s. slot_operands s ≡ shown_slot part decl.now n) }
{
    let first = n * per_slot(decl);
    let mut key = Vec::new(alloc);
    for w in 0..word_count(decl.key) {
        let net = Name::Wire(part, first + 1 + w);
        key.push(Operand::Net(net, word_width(decl.key, w)))?;
    }
    let used = Operand::Net(Name::Wire(part, first), 1);
    Ok(SlotNets { used, key })
}

/// What shows each slot, of the block of a part that shows those of a hash.
pub fn shown_slots<P: Part>(
    alloc: Global,
    part: P,
    decl: &MapDecl,
) -> Result<Vec<SlotNets<Name<P>>>, AllocError>
    requires short { decl.now.key ≤ 40 }
    requires few { decl.now.cap ≤ 65536 }
    ensures { IfOk result (λ r. slots_of r.items ≡ shown_slots part decl.now) }
{
    let mut all = Vec::new(alloc);
    for n in 0..decl.cap {
        all.push(shown_slot(alloc, part, decl, n)?)?;
    }
    Ok(all)
}
