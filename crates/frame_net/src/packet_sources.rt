//! The block that gives the sources of a packet.

ghost use Rattle.std.specs.Prelude.{◌≡◌, ◌+◌, ◌≤◌, IfOk, length, map};
ghost use Rattle.std.specs.List.{AllByRecursion};
ghost use Rattle.net_core.specs.Nets.{SBlock, SEnd};
ghost use Rattle.net_core.specs.View.{tree_of};
ghost use Rattle.block_core.specs.View.{block_of, block_wire_of};
ghost use Rattle.frame_net.specs.Gather.{IsKept};
ghost use Rattle.frame_net.specs.Sources.{IsSources, length_name, kept_name};
ghost use Rattle.frame_net.specs.SourcesNets.{held, frame_length, word_within, kept_tree, sources_wires};

use crate::gathering::kept_width;
use crate::held::Kept;
use crate::nets::{POSITION_WIDTH, beside, held, net, wire};
use block_core::block::{Block, BlockWire};
use block_core::name::{Name, Part};
use net_core::build::{binary, block, conditional, constant};
use net_core::tree::{Expr, Op, Stmts};
use std::alloc::{AllocError, Global};

/// The wire that shows the length of the frame, of 14 bits, where the part is that of sources.
pub fn length_name<P: Part>(part: P) -> Name<P>
    ensures { result ≡ length_name part }
{
    Name::Wire(part, 2)
}

/// The wire that shows what is kept at a place of the list, where the part is that of sources.
pub fn kept_name<P: Part>(part: P, k: u32) -> Name<P>
    requires { k ≤ 255 }
    ensures { result ≡ kept_name part k }
{
    Name::Wire(part, 3 + k)
}

// Eight bytes for each beat before the last, and those of the last.
fn frame_length<P: Part>(
    alloc: Global,
    last: Expr<Name<P>>,
    bytes: Expr<Name<P>>,
) -> Result<Expr<Name<P>>, AllocError>
    ensures { IfOk result (λ e. tree_of e ≡ frame_length (tree_of last) (tree_of bytes)) }
{
    let before = beside(alloc, last, constant(3, 0))?;
    let rest = beside(alloc, constant(10, 0), bytes)?;
    binary(alloc, Op::Add, before, rest)
}

// A word of the frame, or 0 where the last beat stands before it.
fn word_within<P: Part>(
    alloc: Global,
    last: Expr<Name<P>>,
    j: u8,
    there: Expr<Name<P>>,
) -> Result<Expr<Name<P>>, AllocError>
    ensures { IfOk result (λ e. tree_of e ≡ word_within (tree_of last) j (tree_of there)) }
{
    if j == 0 {
        return Ok(there);
    }
    let number = constant(POSITION_WIDTH, u64::from(j));
    let past = binary(alloc, Op::Less, last, number)?;
    conditional(alloc, past, constant(64, 0), there)
}

// What is kept in a memory of the gatherer, as it is shown.
fn kept_tree<P: Part>(
    alloc: Global,
    part: P,
    gather: P,
    slot: Name<P>,
    memory: u32,
    kept: Kept,
) -> Result<Expr<Name<P>>, AllocError>
    ensures { IfOk result (λ e. tree_of e ≡ kept_tree part gather slot memory kept) }
{
    let there = held(alloc, gather, memory, Expr::Read(slot))?;
    match kept {
        Kept::Ifindex | Kept::Time => Ok(there),
        Kept::Word(j) => word_within(alloc, net(part, 0), j, there),
    }
}

// The number of the last beat and its bytes, the length of the frame, and what else is kept.
fn wires<P: Part>(
    alloc: Global,
    part: P,
    gather: P,
    kept: &[Kept],
    slot: Name<P>,
) -> Result<Vec<BlockWire<Name<P>>>, AllocError>
    requires { length kept.now ≤ 255 }
    ensures { IfOk result (λ r. map block_wire_of r.items ≡ sources_wires part gather kept.now slot) }
{
    let last = held(alloc, gather, 1, Expr::Read(slot))?;
    let bytes = held(alloc, gather, 2, Expr::Read(slot))?;
    let length = frame_length(alloc, net(part, 0), net(part, 1))?;
    let mut all = Vec::new(alloc);
    all.push(wire(POSITION_WIDTH, last))?;
    all.push(wire(4, bytes))?;
    all.push(wire(14, length))?;
    let mut memory = 3;
    for what in kept {
        let tree = kept_tree(alloc, part, gather, slot, memory, *what)?;
        all.push(wire(kept_width(*what), tree))?;
        memory += 1;
    }
    Ok(all)
}

/// The block that gives the sources of a packet: what the block of `gather` holds of the frame in a slot, whose number has so
/// many bits and stays while the packet enters the pipeline.
///
/// It reads of other parts the memories of `gather`, and the slot. Its wires show the length of the frame, and what is kept of
/// it, in the order of the list: of a word that the frame does not reach 0.
pub fn sources<P: Part>(
    alloc: Global,
    part: P,
    gather: P,
    bits: u8,
    kept: &[Kept],
    slot: Name<P>,
) -> Result<Block<Name<P>>, AllocError>
    requires some { 1 ≤ bits }
    requires few { length kept.now ≤ 255 }
    requires words { AllByRecursion IsKept kept.now }
    ensures { IfOk result (λ b. IsSources part gather bits kept.now slot (block_of b)) }
{
    let wires = wires(alloc, part, gather, kept, slot)?;
    let statement = block(alloc, Stmts::End)?;
    Ok(Block {
        registers: Vec::new(alloc),
        memories: Vec::new(alloc),
        wires,
        statement,
    })
}
