//! Expressions and wires that the blocks share.

ghost use Rattle.std.specs.Prelude.{◌≡◌, ◌≤◌, IfOk, length};
ghost use Rattle.net_core.specs.Nets.{TRead};
ghost use Rattle.net_core.specs.View.{tree_of};
ghost use Rattle.block_core.specs.View.{block_wire_of};
ghost use Rattle.frame_net.specs.GatherNets.{port, register, net, wire, beside, uncounted, in_bits, masked, next_position, wide, place, in_bank};
ghost use Rattle.frame_net.specs.Frames.{bank_bits, banks, bank};
ghost use Rattle.frame_net.specs.SourcesNets.{held};

use crate::held::Kept;
use block_core::block::BlockWire;
use block_core::name::{Name, Part};
use net_core::build::{binary, conditional, constant, memory_word};
use net_core::tree::{Expr, Op, Parts, Right};
use std::alloc::{AllocError, Global};

/// How many bits the number of a beat has: a frame has 1,152 beats at most.
pub const POSITION_WIDTH: u8 = 11;

pub fn port<P: Part>(k: u32) -> Expr<Name<P>>
    ensures { tree_of result ≡ port {P = P} k }
{
    Expr::Read(Name::Port(k))
}

pub fn register<P: Part>(part: P, k: u32) -> Expr<Name<P>>
    ensures { tree_of result ≡ register part k }
{
    Expr::Read(Name::Register(part, k))
}

pub fn net<P: Part>(part: P, k: u32) -> Expr<Name<P>>
    ensures { tree_of result ≡ net part k }
{
    Expr::Read(Name::Wire(part, k))
}

pub fn wire<P: Part>(width: u8, e: Expr<Name<P>>) -> BlockWire<Name<P>>
    ensures { block_wire_of result ≡ wire width (tree_of e) }
{
    BlockWire {
        width,
        right: Right::Plain(e),
    }
}

/// The word of a memory of a part at an index.
pub fn held<P: Part>(
    alloc: Global,
    part: P,
    k: u32,
    index: Expr<Name<P>>,
) -> Result<Expr<Name<P>>, AllocError>
    ensures { IfOk result (λ e. tree_of e ≡ held part k (tree_of index)) }
{
    memory_word(alloc, Name::Memory(part, k), index)
}

/// One expression above another.
pub fn beside<P: Part>(
    alloc: Global,
    a: Expr<Name<P>>,
    b: Expr<Name<P>>,
) -> Result<Expr<Name<P>>, AllocError>
    ensures { IfOk result (λ e. tree_of e ≡ beside (tree_of a) (tree_of b)) }
{
    let b = Box::new(alloc, Parts::Last(b))?;
    let parts = Box::new(alloc, Parts::More(a, b))?;
    Ok(Expr::Concatenation(parts))
}

/// How many bits of a slot's number tell the slots of one memory of beats apart.
pub fn bank_bits(bits: u8) -> u8
    ensures { result ≡ bank_bits bits }
{
    bits.min(5)
}

/// How many memories of beats there are.
pub fn banks(bits: u8) -> u8
    requires { bits ≤ 9 }
    ensures { result ≡ banks bits }
{
    1 << bits.saturating_sub(5)
}

/// The number of a memory of beats among those of the gatherer.
pub fn bank(kept: &[Kept], b: u8) -> u32
    requires { length kept.now ≤ 255 }
    ensures { result ≡ bank kept.now b }
{
    if b == 0 {
        return 0;
    }
    3 + kept.len() as u32 + u32::from(b - 1)
}

/// The number of a slot after five zeros.
pub fn wide<P: Part>(alloc: Global, slot: Name<P>) -> Result<Expr<Name<P>>, AllocError>
    ensures { IfOk result (λ e. tree_of e ≡ wide slot) }
{
    beside(alloc, constant(5, 0), Expr::Read(slot))
}

/// Where a beat stands in its memory: its number after that of its slot.
pub fn place<P: Part>(
    alloc: Global,
    bits: u8,
    wide: Name<P>,
    position: Expr<Name<P>>,
) -> Result<Expr<Name<P>>, AllocError>
    requires { 1 ≤ bits }
    ensures { IfOk result (λ e. tree_of e ≡ place bits wide (tree_of position)) }
{
    let low = Expr::PartSelect(wide, bank_bits(bits) - 1, 0);
    beside(alloc, low, position)
}

/// Whether a slot is one of a memory of beats.
pub fn in_bank<P: Part>(
    alloc: Global,
    bits: u8,
    wide: Name<P>,
    bank: u8,
) -> Result<Expr<Name<P>>, AllocError>
    requires { bits ≤ 9 }
    ensures { IfOk result (λ e. tree_of e ≡ in_bank bits wide bank) }
{
    let high = Expr::PartSelect(wide, bits + 4, 5);
    binary(alloc, Op::Equal, high, constant(bits, u64::from(bank)))
}

/// How many of a word's eight bytes do not count, where so many do.
pub fn uncounted<P: Part>(alloc: Global, bytes: Expr<Name<P>>) -> Result<Expr<Name<P>>, AllocError>
    ensures { IfOk result (λ e. tree_of e ≡ uncounted (tree_of bytes)) }
{
    binary(alloc, Op::Sub, constant(4, 8), bytes)
}

/// So many bytes in bits.
pub fn in_bits<P: Part>(alloc: Global, bytes: Expr<Name<P>>) -> Result<Expr<Name<P>>, AllocError>
    ensures { IfOk result (λ e. tree_of e ≡ in_bits (tree_of bytes)) }
{
    beside(alloc, bytes, constant(3, 0))
}

/// A word of 64 bits with 0 in place of so many high bits.
pub fn masked<P: Part>(
    alloc: Global,
    value: Expr<Name<P>>,
    shift: Expr<Name<P>>,
) -> Result<Expr<Name<P>>, AllocError>
    ensures { IfOk result (λ e. tree_of e ≡ masked (tree_of value) (tree_of shift)) }
{
    let ones = constant(64, u64::MAX);
    let mask = binary(alloc, Op::ShiftRight, ones, shift)?;
    binary(alloc, Op::And, value, mask)
}

/// The position that follows: 0 after a last beat.
pub fn next_position<P: Part>(
    alloc: Global,
    last: Expr<Name<P>>,
    position: Expr<Name<P>>,
) -> Result<Expr<Name<P>>, AllocError>
    ensures { IfOk result (λ e. tree_of e ≡ next_position (tree_of last) (tree_of position)) }
{
    let one = constant(POSITION_WIDTH, 1);
    let more = binary(alloc, Op::Add, position, one)?;
    conditional(alloc, last, constant(POSITION_WIDTH, 0), more)
}
