//! Where the nets of each part begin.

ghost use Rattle.std.specs.Prelude.{◌≡◌, ◌+◌, IfOk, get_or, map};
ghost use Rattle.block_core.specs.Blocks.{running};
ghost use Rattle.block_core.specs.Range.{in_range, net_in_range, placed_total, totals_in_range, Tells};
ghost use Rattle.block_core.specs.View.{block_of, count_in, resolve_in, StartsOf};

use crate::block::{Block, Placed};
use crate::error::LinkError;
use crate::name::{Name, Part};
use net_core::tree::Net;
use std::alloc::Global;

/// What a block has, each under numbers of its own.
#[derive(Clone, Copy, PartialEq, Eq, Debug)]
pub(crate) enum Section {
    Registers,
    Memories,
    Wires,
}

/// Where the nets of each part begin, by the place of the part.
#[derive(Drop)]
pub(crate) struct Starts {
    pub(crate) registers: Vec<u32>,
    pub(crate) memories: Vec<u32>,
    pub(crate) wires: Vec<u32>,
}

// How many a block has.
fn count<N: Drop>(section: Section, block: &Block<N>) -> usize
    ensures { result ≡ count_in section (block_of block.now) }
{
    match section {
        Section::Registers => block.registers.len(),
        Section::Memories => block.memories.len(),
        Section::Wires => block.wires.len(),
    }
}

/// The number of a net, so many after another.
pub(crate) fn behind(start: u32, count: u32) -> Result<u32, LinkError>
    ensures number { IfOk result (λ n. n ≡ start + count) }
    ensures range { Tells result (in_range (start + count)) }
{
    match start.checked_add(count) {
        Some(n) => Ok(n),
        None => Err(LinkError::TooMany),
    }
}

// The number after so many nets.
fn past(start: u32, count: usize) -> Result<u32, LinkError>
    ensures number { IfOk result (λ n. n ≡ start + count) }
    ensures range { Tells result (in_range (start + count)) }
{
    match u32::try_from(count) {
        Ok(count) => behind(start, count),
        Err(_) => Err(LinkError::TooMany),
    }
}

// Where each part begins in a section.
#[tactic(auto, using(crate::proofs::Loops::running_more, crate::proofs::Loops::running_end))]
fn starts_in<P: Part>(
    alloc: Global,
    section: Section,
    parts: &[Placed<P>],
) -> Result<Vec<u32>, LinkError>
    ensures starts { IfOk result (λ r. r.items ≡ running 0 (map (λ m. count_in section (block_of m.block)) parts.now)) }
    ensures range { Tells result (in_range (placed_total section parts.now)) }
{
    let mut starts = Vec::new(alloc);
    let mut at = 0;
    for placed in parts {
        starts.push(at)?;
        at = past(at, count(section, &placed.block))?;
    }
    Ok(starts)
}

/// Where the nets of each part begin.
pub(crate) fn all_starts<P: Part>(alloc: Global, parts: &[Placed<P>]) -> Result<Starts, LinkError>
    ensures starts { IfOk result (λ s. StartsOf parts.now s) }
    ensures range { Tells result (totals_in_range parts.now) }
{
    Ok(Starts {
        registers: starts_in(alloc, Section::Registers, parts)?,
        memories: starts_in(alloc, Section::Memories, parts)?,
        wires: starts_in(alloc, Section::Wires, parts)?,
    })
}

/// Where a part begins.
pub(crate) fn start<P: Part>(starts: &[u32], part: P) -> u32
    ensures { result ≡ get_or starts.now (P.place part) 0 }
{
    let place = part.place();
    if place < starts.len() {
        starts[place]
    } else {
        0
    }
}

/// A part's net as one of the design.
pub(crate) fn resolve<P: Part>(name: Name<P>, starts: &Starts) -> Result<Net, LinkError>
    ensures net { IfOk result (λ n. n ≡ resolve_in P.place starts.now name) }
    ensures range { Tells result (net_in_range (resolve_in P.place starts.now name)) }
{
    match name {
        Name::Port(i) => Ok(Net::Port(i)),
        Name::Register(part, i) => Ok(Net::Register(behind(start(&starts.registers, part), i)?)),
        Name::Memory(part, i) => Ok(Net::Memory(behind(start(&starts.memories, part), i)?)),
        Name::Wire(part, i) => Ok(Net::Wire(behind(start(&starts.wires, part), i)?)),
    }
}
