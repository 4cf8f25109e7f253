//! Shifts by an operand, and signs.

ghost use Rattle.std.specs.Prelude.{ℕ, List, [], ◌∷◌, ◌^◌, ◌<◌, ◌≤◌, IfOk};
ghost use Rattle.net_core.specs.Value.{Env};
ghost use Rattle.net_core.specs.View.{tree_of};
ghost use Rattle.cell_core.specs.xdp_machine.State.{PacketIn};
ghost use Rattle.cell_core.specs.declared.operator.Operator.TheVariants as operator;
ghost use Rattle.cell_nets.specs.Operands.{IsOperand, IsAvailable, IsFit, IsWide, number_in};
ghost use Rattle.cell_nets.specs.Parts.{Computes, worth};
ghost use Rattle.cell_nets.specs.Wires.{wires_of, always, Gives};

use crate::comparing::span;
use crate::operand::Operand;
use crate::slice::{beside, slice};
use crate::wires::{add_wire, cut};
use block_core::block::BlockWire;
use block_core::name::Name;
use net_core::build::{binary, conditional, constant};
use net_core::tree::{Expr, Op};
use std::alloc::{AllocError, Global};

/// An operand shifted to the left by the low six bits of another one.
pub fn shift_left<N: Copy>(
    alloc: Global,
    a: Operand<N>,
    b: Operand<N>,
    width: u8,
) -> Result<Expr<N>, AllocError>
    requires left { IsOperand a }
    requires right { IsOperand b }
    requires width { IsWide width }
    ensures { (ins : List (Operand N)) (packet : PacketIn) → IsAvailable ins a → IsAvailable ins b → IfOk result (λ e. Computes ins width (worth packet operator.ShiftLeft (a ∷ b ∷ []) width) (tree_of e)) }
{
    let bits = slice(alloc, a, 0, width)?;
    let count = slice(alloc, b, 0, 6)?;
    let e = binary(alloc, Op::ShiftLeft, bits, count)?;
    Ok(e)
}

/// An operand of no more bits shifted to the right by the low six bits of another one.
pub fn shift_right<N: Copy>(
    alloc: Global,
    a: Operand<N>,
    b: Operand<N>,
    width: u8,
) -> Result<Expr<N>, AllocError>
    requires left { IsOperand a }
    requires right { IsOperand b }
    requires width { IsWide width }
    requires enough { (v : Env N) → IsFit v a → number_in v a < 2 ^ width }
    ensures { (ins : List (Operand N)) (packet : PacketIn) → IsAvailable ins a → IsAvailable ins b → IfOk result (λ e. Computes ins width (worth packet operator.ShiftRight (a ∷ b ∷ []) width) (tree_of e)) }
{
    let bits = slice(alloc, a, 0, width)?;
    let count = slice(alloc, b, 0, 6)?;
    let e = binary(alloc, Op::ShiftRight, bits, count)?;
    Ok(e)
}

/// An operand shifted to the right by the low six bits of another one: a wire, or two where it has more bits than are asked for.
pub fn shift_right_wires<P: Copy>(
    alloc: Global,
    wires: &mut Vec<BlockWire<Name<P>>>,
    part: P,
    a: Operand<Name<P>>,
    b: Operand<Name<P>>,
    width: u8,
) -> Result<Operand<Name<P>>, AllocError>
    requires left { IsOperand a }
    requires right { IsOperand b }
    requires width { IsWide width }
    ensures { (packet : PacketIn) → IfOk result (Gives part (wires_of wires.old.items) (wires_of wires.new.items) (a ∷ b ∷ []) always (worth packet operator.ShiftRight (a ∷ b ∷ []) width) width) }
{
    let enough = width.max(span(a));
    let bits = shift_right(alloc, a, b, enough)?;
    let whole = add_wire(wires, part, enough, bits)?;
    if enough == width {
        return Ok(whole);
    }
    let out = cut(alloc, wires, part, whole, 0, width)?;
    Ok(out)
}

/// So many low bits of an operand, their sign repeated.
pub fn sign_extend<N: Copy>(
    alloc: Global,
    a: Operand<N>,
    from: u8,
    width: u8,
) -> Result<Expr<N>, AllocError>
    requires operand { IsOperand a }
    requires sign { IsWide from }
    requires width { IsWide width }
    ensures { (ins : List (Operand N)) (packet : PacketIn) → IsAvailable ins a → IfOk result (λ e. Computes ins width (worth packet (operator.SignExtend from) (a ∷ []) width) (tree_of e)) }
{
    if width <= from {
        let bits = slice(alloc, a, 0, width)?;
        return Ok(bits);
    }
    let sign = slice(alloc, a, from - 1, 1)?;
    let ones = constant(width - from, (1 << (width - from)) - 1);
    let zeros = constant(width - from, 0);
    let high = conditional(alloc, sign, ones, zeros)?;
    let low = slice(alloc, a, 0, from)?;
    let whole = beside(alloc, high, low)?;
    Ok(whole)
}
