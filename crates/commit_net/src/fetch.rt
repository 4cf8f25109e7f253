//! The block that reads words of a slot of a map's table: wires alone.

ghost use Rattle.std.specs.Prelude.{◌≡◌, ◌+◌, ◌≤◌, ◌<◌, IfOk, map};
ghost use Rattle.std.specs.List.{range_with_len};
ghost use Rattle.block_core.specs.View.{block_of, block_wire_of};
ghost use Rattle.overlay_net.specs.hazard_core.Commits.{word_count};
ghost use Rattle.commit_net.specs.Fetching.{fetched_wire, fetched_words, IsFetch};

use block_core::block::{Block, BlockWire};
use block_core::name::{Name, Part};
use frame_net::nets::wire;
use hash_net::array_net::words::word_shown;
use net_core::build::block;
use net_core::tree::{Expr, Stmts};
use std::alloc::{AllocError, Global};

fn fetched_wire<P: Part>(
    alloc: Global,
    of: P,
    first: u32,
    bytes: u32,
    slot: Name<P>,
    j: u32,
) -> Result<BlockWire<Name<P>>, AllocError>
    requires most { bytes ≤ 64 }
    requires few { first ≤ 15 }
    requires there { j < word_count bytes }
    ensures { IfOk result (λ w. block_wire_of w ≡ fetched_wire of first bytes slot j) }
{
    let there = word_shown(alloc, of, first, bytes, j, Expr::Read(slot))?;
    Ok(wire(64, there))
}

fn wires<P: Part>(
    alloc: Global,
    of: P,
    first: u32,
    bytes: u32,
    from: u32,
    count: u32,
    slot: Name<P>,
) -> Result<Vec<BlockWire<Name<P>>>, AllocError>
    requires most { bytes ≤ 64 }
    requires few { first ≤ 15 }
    requires there { from + count ≤ word_count bytes }
    ensures { IfOk result (λ r. map block_wire_of r.items ≡ map (λ i. fetched_wire of first bytes slot (from + i)) (range_with_len 0 count)) }
{
    let mut all = Vec::new(alloc);
    for i in 0..count {
        all.push(fetched_wire(alloc, of, first, bytes, slot, from + i)?)?;
    }
    Ok(all)
}

/// The block that shows so many words, from one on, of a byte string of a slot, each as a wire of 64 bits. The first words of such strings are in a
/// memory of another part, and the next ones in the memories after it: the values of an array from its first memory on, those of a hash after its keys.
pub fn fetch<P: Part>(
    alloc: Global,
    part: P,
    of: P,
    bits: u8,
    first: u32,
    bytes: u32,
    from: u32,
    count: u32,
    slot: Name<P>,
) -> Result<Block<Name<P>>, AllocError>
    requires some { 1 ≤ bits }
    requires most_bits { bits ≤ 16 }
    requires most { bytes ≤ 64 }
    requires few { first ≤ 15 }
    requires there { from + count ≤ word_count bytes }
    ensures { IfOk result (λ b. IsFetch part of bits first bytes from count slot (block_of b)) }
{
    let wires = wires(alloc, of, first, bytes, from, count, slot)?;
    let statement = block(alloc, Stmts::End)?;
    Ok(Block {
        registers: Vec::new(alloc),
        memories: Vec::new(alloc),
        wires,
        statement,
    })
}

/// The nets of so many words, of a part that reads words of a slot.
pub fn fetched_words<P: Part>(
    alloc: Global,
    part: P,
    count: u32,
) -> Result<Vec<Name<P>>, AllocError>
    ensures { IfOk result (λ r. r.items ≡ fetched_words part count) }
{
    let mut words = Vec::new(alloc);
    for i in 0..count {
        words.push(Name::Wire(part, i))?;
    }
    Ok(words)
}
