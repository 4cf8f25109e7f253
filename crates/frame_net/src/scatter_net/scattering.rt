//! The block that shows answers as beats.

ghost use Rattle.std.specs.Prelude.{◌≡◌, ℕ, ◌+◌, ◌-◌, ◌*◌, ◌/◌, ◌≤◌, ◌<◌, ◌++◌, IfOk, OnOk, length, map, Bool, Contains};
ghost use Rattle.net_core.specs.View.{tree_of, trees_of, statement_of};
ghost use Rattle.block_core.specs.View.{block_of, block_wire_of};
ghost use Rattle.frame_net.specs.ScatterNet.Scatter.{IsScatter};
ghost use Rattle.frame_net.specs.ScatterNet.ScatterNets.{may_change, byte, merged, choice, one_word, at_bank, beat_from, shown_wires, raw_wires, scatter_wires};
ghost use Rattle.frame_net.specs.Frames.{banks};

use crate::Kept;
use crate::nets::{
    POSITION_WIDTH, bank, banks, held, in_bank, in_bits, masked, net, next_position, place,
    register, uncounted, wide, wire,
};
use block_core::block::{Block, BlockWire};
use block_core::name::{Name, Part};
use net_core::build::{binary, conditional, constant, when};
use net_core::tree::{Expr, Op, Parts, Stmt, Word};
use std::alloc::{AllocError, Global};

// Whether a byte may change.
fn may_change(bytes: &[u8], b: u32) -> bool
    ensures { result ≡ may_change bytes.now b }
{
    bytes.iter().any(|c| b == u32::from(*c))
}

// A byte of a word, of one net where it may change, else of another.
fn byte<P: Part>(bytes: &[u8], word: u8, changed: Name<P>, raw: Name<P>, k: u8) -> Expr<Name<P>>
    requires { k < 8 }
    ensures { tree_of result ≡ byte bytes.now word changed raw k }
{
    let number = 8 * u32::from(word) + u32::from(k);
    let from = if may_change(bytes, number) {
        changed
    } else {
        raw
    };
    Expr::PartSelect(from, 8 * k + 7, 8 * k)
}

// A word with the bytes that may change of one net, and the others of another.
fn merged<P: Part>(
    alloc: Global,
    bytes: &[u8],
    word: u8,
    changed: Name<P>,
    raw: Name<P>,
) -> Result<Expr<Name<P>>, AllocError>
    ensures { IfOk result (λ e. tree_of e ≡ merged bytes.now word changed raw) }
{
    let mut parts = Parts::Last(byte(bytes, word, changed, raw, 0));
    for k in 0..7 {
        let rest = Box::new(alloc, parts)?;
        parts = Parts::More(byte(bytes, word, changed, raw, k + 1), rest);
    }
    Ok(Expr::Concatenation(Box::new(alloc, parts)?))
}

// The choice by position between a word and what is chosen before it.
fn choice<P: Part>(
    alloc: Global,
    part: P,
    word: u8,
    here: Expr<Name<P>>,
    before: Expr<Name<P>>,
) -> Result<Expr<Name<P>>, AllocError>
    ensures { IfOk result (λ e. tree_of e ≡ choice part word (tree_of here) (tree_of before)) }
{
    let number = constant(POSITION_WIDTH, u64::from(word));
    let is_here = binary(alloc, Op::Equal, register(part, 0), number)?;
    conditional(alloc, is_here, here, before)
}

// The wires of one word, by its place among the words.
fn add_word<P: Part>(
    alloc: Global,
    all: &mut Vec<BlockWire<Name<P>>>,
    part: P,
    exit: P,
    slot: Name<P>,
    bytes: &[u8],
    i: u32,
    word: u8,
) -> Result<(), AllocError>
    requires { i ≤ 255 }
    ensures { OnOk result (map block_wire_of all.new.items ≡ map block_wire_of all.old.items ++ one_word part exit slot bytes.now i word) }
{
    let at = 10 + 3 * i;
    let answer = held(alloc, exit, 2 + i, Expr::Read(slot))?;
    let merged = merged(
        alloc,
        bytes,
        word,
        Name::Wire(part, at),
        Name::Wire(part, 9),
    )?;
    let chosen = choice(alloc, part, word, net(part, at + 1), net(part, at - 1))?;
    all.push(wire(64, answer))?;
    all.push(wire(64, merged))?;
    all.push(wire(64, chosen))?;
    Ok(())
}

// Where the beat stands, whether it is the last, how many bytes it has, and the verdict and the target.
fn shown<P: Part>(
    alloc: Global,
    part: P,
    gather: P,
    exit: P,
    bits: u8,
    slot: Name<P>,
) -> Result<Vec<BlockWire<Name<P>>>, AllocError>
    requires { bits ≤ 9 }
    ensures { IfOk result (λ r. map block_wire_of r.items ≡ shown_wires part gather exit bits slot) }
{
    let wide = wide(alloc, slot)?;
    let last = held(alloc, gather, 1, Expr::Read(slot))?;
    let rest = held(alloc, gather, 2, Expr::Read(slot))?;
    let is_last = binary(alloc, Op::Equal, register(part, 0), net(part, 1))?;
    let count = conditional(alloc, net(part, 3), net(part, 2), constant(4, 8))?;
    let verdict = held(alloc, exit, 0, Expr::Read(slot))?;
    let target = held(alloc, exit, 1, Expr::Read(slot))?;
    let mut all = Vec::new(alloc);
    all.push(wire(bits + 5, wide))?;
    all.push(wire(POSITION_WIDTH, last))?;
    all.push(wire(4, rest))?;
    all.push(wire(1, is_last))?;
    all.push(wire(4, count))?;
    all.push(wire(32, verdict))?;
    all.push(wire(32, target))?;
    Ok(all)
}

// The beat as it came, in a memory of beats.
fn at_bank<P: Part>(
    alloc: Global,
    part: P,
    gather: P,
    bits: u8,
    kept: &[Kept],
    b: u8,
) -> Result<Expr<Name<P>>, AllocError>
    requires some { 1 ≤ bits }
    requires few { length kept.now ≤ 255 }
    ensures { IfOk result (λ e. tree_of e ≡ at_bank part gather bits kept.now b) }
{
    let index = place(alloc, bits, Name::Wire(part, 0), register(part, 0))?;
    held(alloc, gather, bank(kept, b), index)
}

// The beat as it came, in the memory of its slot.
fn beat<P: Part>(
    alloc: Global,
    part: P,
    gather: P,
    bits: u8,
    kept: &[Kept],
) -> Result<Expr<Name<P>>, AllocError>
    requires some { 1 ≤ bits }
    requires most { bits ≤ 9 }
    requires few { length kept.now ≤ 255 }
    ensures { IfOk result (λ e. tree_of e ≡ beat_from part gather bits kept.now 0 (banks bits - 1)) }
{
    let last = banks(bits) - 1;
    let mut tree = at_bank(alloc, part, gather, bits, kept, last)?;
    for k in 0..last {
        let b = last - 1 - k;
        let here = in_bank(alloc, bits, Name::Wire(part, 0), b)?;
        let there = at_bank(alloc, part, gather, bits, kept, b)?;
        tree = conditional(alloc, here, there, tree)?;
    }
    Ok(tree)
}

// How many bytes do not count, in bytes and in bits, and the beat as it came.
fn add_beat<P: Part>(
    alloc: Global,
    all: &mut Vec<BlockWire<Name<P>>>,
    part: P,
    gather: P,
    bits: u8,
    kept: &[Kept],
) -> Result<(), AllocError>
    requires some { 1 ≤ bits }
    requires most { bits ≤ 9 }
    requires few { length kept.now ≤ 255 }
    ensures { OnOk result (map block_wire_of all.new.items ≡ map block_wire_of all.old.items ++ raw_wires part gather bits kept.now) }
{
    let left = uncounted(alloc, net(part, 4))?;
    let shift = in_bits(alloc, net(part, 7))?;
    let beat = beat(alloc, part, gather, bits, kept)?;
    all.push(wire(4, left))?;
    all.push(wire(7, shift))?;
    all.push(wire(64, beat))?;
    Ok(())
}

// The wires of the block: after those of the beat those of each word, and the data.
fn wires<P: Part>(
    alloc: Global,
    part: P,
    gather: P,
    exit: P,
    bits: u8,
    kept: &[Kept],
    words: &[u8],
    bytes: &[u8],
    slot: Name<P>,
) -> Result<Vec<BlockWire<Name<P>>>, AllocError>
    requires some { 1 ≤ bits }
    requires most { bits ≤ 9 }
    requires few_kept { length kept.now ≤ 255 }
    requires few { length words.now ≤ 255 }
    ensures { IfOk result (λ r. map block_wire_of r.items ≡ scatter_wires part gather exit bits kept.now words.now bytes.now slot) }
{
    let mut all = shown(alloc, part, gather, exit, bits, slot)?;
    add_beat(alloc, &mut all, part, gather, bits, kept)?;
    let mut i = 0;
    for word in words {
        add_word(alloc, &mut all, part, exit, slot, bytes, i, *word)?;
        i += 1;
    }
    let content = masked(alloc, net(part, 9 + 3 * i), net(part, 8))?;
    all.push(wire(64, content))?;
    Ok(all)
}

/// The block that shows answers as beats.
///
/// It reads of other parts the beats of the frames that came, in the memories of `gather`, and the answers, in those of `exit`:
/// 0 the verdicts, 1 the targets, and after them for each of the words, eight bytes a word, those of its bytes that may change.
/// The slot is that of the answer that is given next, and stays until its last beat is taken.
pub fn scatter<P: Part>(
    alloc: Global,
    part: P,
    gather: P,
    exit: P,
    bits: u8,
    kept: &[Kept],
    words: &[u8],
    bytes: &[u8],
    taken: Name<P>,
    slot: Name<P>,
) -> Result<Block<Name<P>>, AllocError>
    requires some { 1 ≤ bits }
    requires most { bits ≤ 9 }
    requires few_kept { length kept.now ≤ 255 }
    requires few { length words.now ≤ 255 }
    requires covered { (b : ℕ) → Contains bytes.now b → Contains words.now (b / 8) }
    ensures { IfOk result (λ b. IsScatter part gather exit bits kept.now words.now bytes.now taken slot (block_of b)) }
{
    let wires = wires(alloc, part, gather, exit, bits, kept, words, bytes, slot)?;
    let next = next_position(alloc, net(part, 3), register(part, 0))?;
    let statement = when(alloc, Expr::Read(taken), Stmt::Set(0, next))?;
    let first = Word {
        width: POSITION_WIDTH,
        value: 0,
    };
    let mut registers = Vec::new(alloc);
    registers.push(first)?;
    Ok(Block {
        registers,
        memories: Vec::new(alloc),
        wires,
        statement,
    })
}
