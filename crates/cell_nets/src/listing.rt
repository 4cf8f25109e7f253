//! Operators on any number of operands.

ghost use Rattle.std.specs.Prelude.{ℕ, List, [], ◌∷◌, ◌≡◌, ◌-◌, ◌*◌, ◌/◌, ◌<◌, ◌≤◌, All, length, drop, IfOk, map as map_list};
ghost use Rattle.std.specs.List.{list_any};
ghost use Rattle.net_core.specs.View.{tree_of};
ghost use Rattle.cell_core.specs.xdp_machine.State.{PacketIn};
ghost use Rattle.cell_core.specs.declared.operator.Operator.TheVariants as operator;
ghost use Rattle.cell_core.specs.Cells.{bit, on, bits_from, phi};
ghost use Rattle.cell_nets.specs.Listing.{IsChosen};
ghost use Rattle.cell_nets.specs.Operands.{IsOperand, IsAvailable, IsNarrow, IsWide, number_in};
ghost use Rattle.cell_nets.specs.Parts.{Computes, worth};

use crate::choosing::truth;
use crate::comparing::extend;
use crate::operand::Operand;
use crate::slice::{beside, slice};
use net_core::build::{binary, conditional, constant};
use net_core::tree::{Expr, Op};
use std::alloc::{AllocError, Global};

/// How many operands an expression has at most.
pub const MOST_OPERANDS: usize = 40;

/// Whether one of some operands is not 0: 1 or 0.
pub fn any<N: Copy>(alloc: Global, args: &[Operand<N>], width: u8) -> Result<Expr<N>, AllocError>
    requires operands { All IsOperand args.now }
    requires few { length args.now ≤ MOST_OPERANDS }
    requires width { IsWide width }
    ensures { (ins : List (Operand N)) (packet : PacketIn) → All (IsAvailable ins) args.now → IfOk result (λ e. Computes ins width (worth packet operator.Any args.now width) (tree_of e)) }
{
    let mut found = constant(1, 0);
    for a in args {
        let one = truth(alloc, *a)?;
        found = binary(alloc, Op::Or, found, one)?;
    }
    let e = extend(alloc, found, 1, width)?;
    Ok(e)
}

// The value of the last pair of operands, or 0 where its second is missing.
pub(crate) fn last_value<N: Copy>(
    alloc: Global,
    args: &[Operand<N>],
    at: usize,
    width: u8,
) -> Result<Expr<N>, AllocError>
    requires operands { All IsOperand args.now }
    requires last { at ≡ (length args.now - 1) / 2 * 2 }
    requires width { IsWide width }
    ensures { IfOk result (λ e. IsChosen args.now width at (tree_of e)) }
{
    if args.len() > at + 1 {
        let value = slice(alloc, args[at + 1], 0, width)?;
        return Ok(value);
    }
    Ok(constant(width, 0))
}

/// Of operands in pairs, the second of the first pair whose first is not 0, or else of the last; 0 in place of one that is missing.
pub fn phi<N: Copy>(alloc: Global, args: &[Operand<N>], width: u8) -> Result<Expr<N>, AllocError>
    requires operands { All IsOperand args.now }
    requires few { length args.now ≤ MOST_OPERANDS }
    requires width { IsWide width }
    ensures { (ins : List (Operand N)) (packet : PacketIn) → All (IsAvailable ins) args.now → IfOk result (λ e. Computes ins width (worth packet operator.Phi args.now width) (tree_of e)) }
{
    let mut at = args.len().saturating_sub(1) / 2 * 2;
    let mut chosen = last_value(alloc, args, at, width)?;
    while at >= 2 {
        at -= 2;
        let edge = truth(alloc, args[at])?;
        let value = slice(alloc, args[at + 1], 0, width)?;
        chosen = conditional(alloc, edge, value, chosen)?;
    }
    Ok(chosen)
}

// How many of the bits that are left an operand gives, before which so many others stand: the first gives all of them.
fn given(before: usize, bits: u8, left: u8) -> u8
    requires some { 0 < bits }
    requires more { 0 < left }
    ensures some { 0 < result }
    ensures most { result ≤ left }
    ensures others { 0 < before → result ≤ bits }
    ensures rest { result < left → (0 < before) × (result ≡ bits) }
{
    if before == 0 || left <= bits {
        left
    } else {
        bits
    }
}

/// Operands above one another, the first the highest, each so many bits above the next, where none but the first has more.
pub fn join<N: Copy>(
    alloc: Global,
    args: &[Operand<N>],
    bits: u8,
    width: u8,
) -> Result<Expr<N>, AllocError>
    requires operands { All IsOperand args.now }
    requires few { length args.now ≤ MOST_OPERANDS }
    requires bits { (0 < bits) × (bits ≤ 63) }
    requires apart { All (IsNarrow bits) (drop 1 args.now) }
    requires width { IsWide width }
    ensures { (ins : List (Operand N)) (packet : PacketIn) → All (IsAvailable ins) args.now → IfOk result (λ e. Computes ins width (worth packet (operator.Join bits) args.now width) (tree_of e)) }
{
    let count = args.len();
    if count == 0 {
        return Ok(constant(width, 0));
    }
    let mut at = count - 1;
    let mut done = given(at, bits, width);
    let mut e = slice(alloc, args[at], 0, done)?;
    while done < width {
        at -= 1;
        let more = given(at, bits, width - done);
        let piece = slice(alloc, args[at], 0, more)?;
        e = beside(alloc, piece, e)?;
        done += more;
    }
    Ok(e)
}
