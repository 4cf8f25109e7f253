//! Wires for any operator that is computed.

ghost use Rattle.std.specs.Prelude.{ℕ, List, [], ◌∷◌, Some, ◌≡◌, ◌<◌, ◌≤◌, true, false, All, take, drop, slice_index, IfOk, map as map_list};
ghost use Rattle.net_core.specs.Value.{Env};
ghost use Rattle.net_core.specs.View.{tree_of};
ghost use Rattle.cell_core.specs.xdp_machine.State.{PacketIn};
ghost use Rattle.cell_core.specs.declared.operator.Operator.TheVariants as operator;
ghost use Rattle.cell_core.specs.Cells.{number, bits_from};
ghost use Rattle.cell_core.specs.Formed.{IsInRange};
ghost use Rattle.cell_nets.specs.Computing.{is_outside, is_operation, takes_all, is_wired, makes_product, taken, IsPair, HasDivisor};
ghost use Rattle.cell_nets.specs.Narrow.{narrow_op, test_op};
ghost use Rattle.cell_nets.specs.Operands.{IsOperand, IsAvailable, IsNarrow, IsWide, number_in};
ghost use Rattle.cell_nets.specs.Parts.{ComputesBy, worth};
ghost use Rattle.cell_nets.specs.Wires.{wires_of, always, GivesBy, Gives};

use crate::choosing::{invert, non_zero, select};
use crate::comparing::compare;
use crate::dividing::divide;
use crate::gathering::any_wires;
use crate::listing::{MOST_OPERANDS, join};
use crate::narrow::narrow;
use crate::operand::Operand;
use crate::phi::phi_wires;
use crate::shifting::{shift_left, shift_right_wires, sign_extend};
use crate::summing::join_wires;
use crate::wires::{add_wire, cut};
use block_core::block::BlockWire;
use block_core::name::Name;
use cell_core::operator::Operator;
use cell_core::value::bits_from;
use net_core::tree::{Expr, Op};
use std::alloc::{AllocError, Global};

/// Whether the number of an operator comes from outside: from the packet or from the maps.
pub fn is_outside(op: Operator) -> bool
    ensures { result ≡ is_outside op }
{
    matches!(
        op,
        Operator::Byte(_)
            | Operator::Length
            | Operator::Ifindex
            | Operator::Time
            | Operator::Found(_)
            | Operator::Answer(_)
    )
}

/// Whether an operator takes all its operands.
fn takes_all(op: Operator) -> bool
    ensures { result ≡ takes_all op }
{
    matches!(op, Operator::Join(_) | Operator::Any | Operator::Phi)
}

/// Whether an operator may take more wires than one.
fn is_wired(op: Operator) -> bool
    ensures { result ≡ is_wired op }
{
    matches!(
        op,
        Operator::ShiftRight | Operator::Quotient | Operator::Remainder
    ) || takes_all(op)
}

/// An operand by its number, 0 past the last.
fn input<N: Copy>(args: &[Operand<N>], at: usize) -> Operand<N>
    requires { All IsOperand args.now }
    ensures operand { IsOperand result }
    ensures available { (ins : List (Operand N)) (n : ℕ) → at < n → All (IsAvailable ins) (take n args.now) → IsAvailable ins result }
    ensures number { (v : Env N) → number_in v result ≡ slice_index (map_list (number_in v) args.now) at }
{
    if at < args.len() {
        args[at]
    } else {
        Operand::Known(0)
    }
}

/// The comparison of an operator that compares two inputs.
fn test_op(op: Operator) -> Option<Op>
    ensures { result ≡ test_op op }
{
    match op {
        Operator::Equal => Some(Op::Equal),
        Operator::Less => Some(Op::Less),
        Operator::LessOrEqual => Some(Op::LessEqual),
        _ => None,
    }
}

/// The operation of an operator on the low bits of two inputs.
fn narrow_op(op: Operator) -> Op
    ensures { (o : Op) → narrow_op op ≡ Some o → result ≡ o }
{
    match op {
        Operator::And => Op::And,
        Operator::Or => Op::Or,
        Operator::Xor => Op::Xor,
        Operator::Add => Op::Add,
        Operator::Mul => Op::Mul,
        _ => Op::Sub,
    }
}

/// An expression for an operation or a comparison of two operands.
fn pair<N: Copy>(
    alloc: Global,
    op: Operator,
    a: Operand<N>,
    b: Operand<N>,
    width: u8,
) -> Result<Expr<N>, AllocError>
    requires pair { IsPair op }
    requires left { IsOperand a }
    requires right { IsOperand b }
    requires width { IsWide width }
    ensures { (ins : List (Operand N)) (packet : PacketIn) → IsAvailable ins a → IsAvailable ins b → IfOk result (λ e. ComputesBy (makes_product op) ins width (worth packet op (a ∷ b ∷ []) width) (tree_of e)) }
{
    if let Some(test) = test_op(op) {
        let e = compare(alloc, test, a, b, width)?;
        return Ok(e);
    }
    let e = narrow(alloc, narrow_op(op), a, b, width)?;
    Ok(e)
}

/// An expression for an operation that needs no further wires.
fn expression<N: Copy>(
    alloc: Global,
    op: Operator,
    args: &[Operand<N>],
    width: u8,
) -> Result<Expr<N>, AllocError>
    requires operation { is_operation op ≡ true }
    requires plain { is_wired op ≡ false }
    requires in_range { IsInRange op }
    requires operands { All IsOperand args.now }
    requires width { IsWide width }
    ensures { (ins : List (Operand N)) (packet : PacketIn) → All (IsAvailable ins) args.now → IfOk result (λ e. ComputesBy (makes_product op) ins width (worth packet op args.now width) (tree_of e)) }
{
    let (a, b) = (input(args, 0), input(args, 1));
    match op {
        Operator::Not => {
            let e = invert(alloc, a, width)?;
            Ok(e)
        }
        Operator::NonZero => {
            let e = non_zero(alloc, a, width)?;
            Ok(e)
        }
        Operator::SignExtend(bits) => {
            let e = sign_extend(alloc, a, bits as u8, width)?;
            Ok(e)
        }
        Operator::Select => {
            let e = select(alloc, a, b, input(args, 2), width)?;
            Ok(e)
        }
        Operator::ShiftLeft => {
            let e = shift_left(alloc, a, b, width)?;
            Ok(e)
        }
        _ => {
            let e = pair(alloc, op, a, b, width)?;
            Ok(e)
        }
    }
}

/// Whether an operand has no more than so many bits.
fn is_narrow<N: Copy>(a: Operand<N>, bits: u8) -> bool
    requires { bits ≤ 63 }
    ensures { result ≡ true → IsNarrow bits a }
{
    match a {
        Operand::Known(n) => n < 1 << bits,
        Operand::Net(_, width) => width <= bits,
        Operand::Part(_, _, _, width) => width <= bits,
    }
}

/// Whether no operand but the first has more.
fn are_narrow<N: Copy>(args: &[Operand<N>], bits: u8) -> bool
    requires { bits ≤ 63 }
    ensures { result ≡ true → All (IsNarrow bits) (drop 1 args.now) }
{
    for at in 1..args.len() {
        if !is_narrow(args[at], bits) {
            return false;
        }
    }
    true
}

/// Operands above one another, each so many bits above the next: one wire where they are few and have no more bits than that.
fn joined<P: Copy>(
    alloc: Global,
    wires: &mut Vec<BlockWire<Name<P>>>,
    part: P,
    args: &[Operand<Name<P>>],
    bits: u8,
    width: u8,
) -> Result<Operand<Name<P>>, AllocError>
    requires operands { All IsOperand args.now }
    requires bits { bits ≤ 63 }
    requires width { IsWide width }
    ensures { (packet : PacketIn) → IfOk result (Gives part (wires_of wires.old.items) (wires_of wires.new.items) args.now always (worth packet (operator.Join bits) args.now width) width) }
{
    if bits > 0 && args.len() <= MOST_OPERANDS && are_narrow(args, bits) {
        let e = join(alloc, args, bits, width)?;
        let out = add_wire(wires, part, width, e)?;
        return Ok(out);
    }
    let out = join_wires(alloc, wires, part, args, bits, width)?;
    Ok(out)
}

/// Wires for an operator that takes all its operands.
fn list_wires<P: Copy>(
    alloc: Global,
    wires: &mut Vec<BlockWire<Name<P>>>,
    part: P,
    op: Operator,
    args: &[Operand<Name<P>>],
    width: u8,
) -> Result<Operand<Name<P>>, AllocError>
    requires all { takes_all op ≡ true }
    requires in_range { IsInRange op }
    requires operands { All IsOperand args.now }
    requires width { IsWide width }
    ensures { (packet : PacketIn) → IfOk result (Gives part (wires_of wires.old.items) (wires_of wires.new.items) args.now always (worth packet op args.now width) width) }
{
    match op {
        Operator::Join(bits) => {
            let out = joined(alloc, wires, part, args, bits as u8, width)?;
            Ok(out)
        }
        Operator::Any => {
            let out = any_wires(alloc, wires, part, args, width)?;
            Ok(out)
        }
        _ => {
            let out = phi_wires(alloc, wires, part, args, width)?;
            Ok(out)
        }
    }
}

/// Wires for a shift to the right, a quotient or a remainder.
fn pair_wires<P: Copy>(
    alloc: Global,
    wires: &mut Vec<BlockWire<Name<P>>>,
    part: P,
    op: Operator,
    args: &[Operand<Name<P>>],
    width: u8,
) -> Result<Operand<Name<P>>, AllocError>
    requires wired { is_wired op ≡ true }
    requires two { takes_all op ≡ false }
    requires operands { All IsOperand args.now }
    requires width { IsWide width }
    ensures { (packet : PacketIn) → IfOk result (GivesBy (makes_product op) part (wires_of wires.old.items) (wires_of wires.new.items) (taken op args.now) (HasDivisor op args.now) (worth packet op args.now width) width) }
{
    let (a, b) = (input(args, 0), input(args, 1));
    match op {
        Operator::ShiftRight => {
            let out = shift_right_wires(alloc, wires, part, a, b, width)?;
            Ok(out)
        }
        Operator::Remainder => {
            let out = divide(alloc, wires, part, true, a, b, width)?;
            Ok(out)
        }
        _ => {
            let out = divide(alloc, wires, part, false, a, b, width)?;
            Ok(out)
        }
    }
}

/// Wires for an operation.
fn operation_wires<P: Copy>(
    alloc: Global,
    wires: &mut Vec<BlockWire<Name<P>>>,
    part: P,
    op: Operator,
    args: &[Operand<Name<P>>],
    width: u8,
) -> Result<Operand<Name<P>>, AllocError>
    requires operation { is_operation op ≡ true }
    requires in_range { IsInRange op }
    requires operands { All IsOperand args.now }
    requires width { IsWide width }
    ensures { (packet : PacketIn) → IfOk result (GivesBy (makes_product op) part (wires_of wires.old.items) (wires_of wires.new.items) (taken op args.now) (HasDivisor op args.now) (worth packet op args.now width) width) }
{
    if takes_all(op) {
        let out = list_wires(alloc, wires, part, op, args, width)?;
        return Ok(out);
    }
    if is_wired(op) {
        let out = pair_wires(alloc, wires, part, op, args, width)?;
        return Ok(out);
    }
    let e = expression(alloc, op, args, width)?;
    let out = add_wire(wires, part, width, e)?;
    Ok(out)
}

/// Wires for so many bits of an operation, from one on.
fn part_wires<P: Copy>(
    alloc: Global,
    wires: &mut Vec<BlockWire<Name<P>>>,
    part: P,
    op: Operator,
    args: &[Operand<Name<P>>],
    width: u8,
    from: u8,
) -> Result<Operand<Name<P>>, AllocError>
    requires operation { is_operation op ≡ true }
    requires in_range { IsInRange op }
    requires operands { All IsOperand args.now }
    requires width { IsWide width }
    requires from { from ≤ 63 }
    ensures { (packet : PacketIn) → IfOk result (GivesBy (makes_product op) part (wires_of wires.old.items) (wires_of wires.new.items) (taken op args.now) (HasDivisor op args.now) (λ v. bits_from (number packet op (map_list (number_in v) args.now)) from width) width) }
{
    if from == 0 {
        let out = operation_wires(alloc, wires, part, op, args, width)?;
        return Ok(out);
    }
    let whole = operation_wires(alloc, wires, part, op, args, 64)?;
    let out = cut(alloc, wires, part, whole, from, width)?;
    Ok(out)
}

/// Wires for a cell: so many bits of the number of its operator on these operands, from one on. A constant, and what has no bits, takes none. The number of a
/// quotient or a remainder is right where its divisor is not 0.
pub fn cell_wires<P: Copy>(
    alloc: Global,
    wires: &mut Vec<BlockWire<Name<P>>>,
    part: P,
    op: Operator,
    args: &[Operand<Name<P>>],
    width: u8,
    from: u8,
) -> Result<Operand<Name<P>>, AllocError>
    requires computed { is_outside op ≡ false }
    requires in_range { IsInRange op }
    requires operands { All IsOperand args.now }
    requires width { width ≤ 64 }
    requires from { from ≤ 63 }
    ensures { (packet : PacketIn) → IfOk result (GivesBy (makes_product op) part (wires_of wires.old.items) (wires_of wires.new.items) (taken op args.now) (HasDivisor op args.now) (λ v. bits_from (number packet op (map_list (number_in v) args.now)) from width) width) }
{
    if width == 0 {
        return Ok(Operand::Known(0));
    }
    match op {
        Operator::Constant(n) => Ok(Operand::Known(bits_from(
            n,
            u32::from(from),
            u32::from(width),
        ))),
        Operator::Pending => Ok(Operand::Known(0)),
        Operator::Wire | Operator::Later => {
            let out = cut(alloc, wires, part, input(args, 0), from, width)?;
            Ok(out)
        }
        _ => {
            let out = part_wires(alloc, wires, part, op, args, width, from)?;
            Ok(out)
        }
    }
}
