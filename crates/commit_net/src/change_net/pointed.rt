//! The part that shows words of a slot by the slot's number, which stands among its own wires.

ghost use Rattle.std.specs.Prelude.{◌≡◌, List, [], ◌∷◌, ◌++◌, ◌+◌, ◌<◌, ◌≤◌, length, map, IfOk, OnOk};
ghost use Rattle.std.specs.List.{range_with_len};
ghost use Rattle.block_core.specs.View.{block_of, block_wire_of};
ghost use Rattle.overlay_net.specs.hazard_core.Commits.{word_count};
ghost use Rattle.overlay_net.specs.cell_nets.declared.operand.Operand.{Operand};
ghost use Rattle.overlay_net.specs.cell_nets.Operands.{IsOperand};
ghost use Rattle.overlay_net.specs.cell_nets.Wires.{wires_of};
ghost use Rattle.commit_net.specs.Fetching.{fetched_wire};
ghost use Rattle.commit_net.specs.ChangeNet.Pointed.{wires_from, IsOver, IsPointedWords};

use block_core::block::{Block, BlockWire};
use block_core::name::{Name, Part};
use frame_net::nets::wire;
use hash_net::array_net::words::word_shown;
use net_core::tree::Expr;
use overlay_net::cell_nets::operand::Operand;
use overlay_net::cell_nets::operand_blocks::wiring::{named, wiring};
use overlay_net::cell_nets::wires::cut;
use std::alloc::{AllocError, Global};

/// A part that shows words of a slot: its block, the net of the slot's number, and the nets of the words, of 64 bits.
#[derive(Drop)]
pub struct PointedWords<N: Drop> {
    pub block: Block<N>,
    pub slot: N,
    pub words: Vec<N>,
}

// The wire of a word, where a memory of another part has the first words of byte strings.
fn word_wire<P: Part>(
    alloc: Global,
    of: P,
    first: u32,
    bytes: u32,
    slot: Name<P>,
    j: u32,
) -> Result<BlockWire<Name<P>>, AllocError>
    requires most { bytes ≤ 64 }
    requires few { first ≤ 15 }
    requires there { j < word_count bytes }
    ensures { IfOk result (λ w. block_wire_of w ≡ fetched_wire of first bytes slot j) }
{
    let there = word_shown(alloc, of, first, bytes, j, Expr::Read(slot))?;
    Ok(wire(64, there))
}

// Adds a wire after others, and says what it is called. Of 2^32 wires a part has no room for more, as where memory is out.
fn push<P: Part>(
    wires: &mut Vec<BlockWire<Name<P>>>,
    part: P,
    added: BlockWire<Name<P>>,
) -> Result<Name<P>, AllocError>
    ensures wires { OnOk result (wires_of wires.new.items ≡ wires_of wires.old.items ++ block_wire_of added ∷ []) }
    ensures name { IfOk result (λ n. n ≡ Name.Wire part (length (wires_of wires.old.items))) }
{
    let Ok(number) = u32::try_from(wires.len()) else {
        return Err(AllocError);
    };
    wires.push(added)?;
    Ok(Name::Wire(part, number))
}

// Adds the wires of so many words, from one on.
fn add_words<P: Part>(
    alloc: Global,
    wires: &mut Vec<BlockWire<Name<P>>>,
    part: P,
    of: P,
    first: u32,
    bytes: u32,
    from: u32,
    count: u32,
    slot: Name<P>,
) -> Result<Vec<Name<P>>, AllocError>
    requires most { bytes ≤ 64 }
    requires few { first ≤ 15 }
    requires there { from + count ≤ word_count bytes }
    ensures wires { OnOk result (wires_of wires.new.items ≡ wires_of wires.old.items ++ map (λ i. fetched_wire of first bytes slot (from + i)) (range_with_len 0 count)) }
    ensures names { IfOk result (λ r. r.items ≡ wires_from part (length (wires_of wires.old.items)) count) }
{
    let mut words = Vec::new(alloc);
    for i in 0..count {
        let there = word_wire(alloc, of, first, bytes, slot, from + i)?;
        let name = push(wires, part, there)?;
        words.push(name)?;
    }
    Ok(words)
}

/// The part that has these wires, and after them one with so many bits of an operand, from one on, as the number of a slot, and so many words, from
/// one on, of a byte string of that slot. The first words of such strings are in a memory of another part, and the next ones in the memories after it.
///
/// The operand is a number, a net from outside, or one of the wires. The number of a pointer to a slot has the number of the slot above its two low bits.
pub fn pointed_words<P: Part>(
    alloc: Global,
    part: P,
    mut wires: Vec<BlockWire<Name<P>>>,
    slot: Operand<Name<P>>,
    shift: u8,
    of: P,
    bits: u8,
    first: u32,
    bytes: u32,
    from: u32,
    count: u32,
) -> Result<PointedWords<Name<P>>, AllocError>
    requires slot { IsOperand slot }
    requires shift { shift ≤ 63 }
    requires some { 1 ≤ bits }
    requires most_bits { bits ≤ 16 }
    requires most { bytes ≤ 64 }
    requires few { first ≤ 15 }
    requires there { from + count ≤ word_count bytes }
    ensures { (outside : List (Operand (Name P))) → IsOver part outside (wires_of wires.items) slot → IfOk result (λ r. IsPointedWords part of outside (wires_of wires.items) slot shift bits first bytes from count r.slot r.words.items (block_of r.block)) }
{
    let low = cut(alloc, &mut wires, part, slot, shift, bits)?;
    let number = named(alloc, &mut wires, part, low, bits)?;
    let words = add_words(
        alloc, &mut wires, part, of, first, bytes, from, count, number,
    )?;
    let block = wiring(alloc, wires)?;
    Ok(PointedWords {
        block,
        slot: number,
        words,
    })
}
