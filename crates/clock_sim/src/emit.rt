//! Steps for expressions and right sides of wires.

ghost use Rattle.std.specs.Prelude.{◌≡◌, ℕ, ◌-◌, ◌^◌, ◌<◌, ◌≤◌, length, IfOk, if◌then◌else◌};
ghost use Rattle.net_core.specs.Value.{apply_unary, apply, part_select, concatenated, conditional, value, concatenated_parts, right_value};
ghost use Rattle.net_core.specs.Width.{unary_width, op_width, part_select_width, concatenation_width, conditional_width, memory_word_width, width_of, parts_width, right_width};
ghost use Rattle.net_core.specs.View.{tree_of, trees_of, right_of};
ghost use Rattle.clock_sim.specs.Flat.{Adds, MakesOne, MakesTwo, MakesThree, Fetches, AreOperands, scope_of, widths_in, Values, PartValues, Joins, RightValues};
ghost use Rattle.clock_sim.specs.Steps.{opcode_of, op_swaps};

use crate::builder::{Operand, StepBuilder, add_step, constant};
use crate::operands::{Operands, operand_of, word_width};
use crate::step::Opcode;
use net_core::tree::{Expr, Net, Op, Parts, Right, UnaryOp};
use net_core::width::{
    concatenation_width, conditional_width, op_width, part_select_width, unary_width,
};
use std::alloc::AllocError;

// The greatest number of a width.
#[tactic(auto, using(net_core::proofs::LowBitsLaws::ones_low))]
fn greatest(width: u8) -> u64
    ensures { width ≤ 64 → result ≡ 2 ^ width - 1 }
{
    if 0 < width && width <= 64 {
        u64::MAX >> (64 - width)
    } else {
        0
    }
}

fn apply_unary(
    unary_op: UnaryOp,
    a: Operand,
    builder: &mut StepBuilder,
) -> Result<Operand, AllocError>
    requires there { a.slot < length builder.old.slots }
    ensures adds { IfOk result (λ p. Adds builder.old builder.new p.slot) }
    ensures width { IfOk result (λ p. 0 < a.width → p.width ≡ unary_width unary_op a.width) }
    ensures makes { IfOk result (λ p. MakesOne builder.old builder.new a p (apply_unary unary_op)) }
{
    let width = unary_width(unary_op, a.width);
    match unary_op {
        UnaryOp::Not => {
            let mask = greatest(a.width);
            let slot = add_step(builder, Opcode::Complement, a.slot, a.slot, 0, mask)?;
            Ok(Operand { slot, width })
        }
        UnaryOp::ReduceOr => {
            let slot = add_step(builder, Opcode::ReduceOr, a.slot, a.slot, 0, 0)?;
            Ok(Operand { slot, width })
        }
    }
}

// The opcode of an operator.
fn opcode_of(op: Op) -> Opcode
    ensures { result ≡ opcode_of op }
{
    match op {
        Op::Add => Opcode::Add,
        Op::Sub => Opcode::Subtract,
        Op::Mul => Opcode::Multiply,
        Op::And => Opcode::And,
        Op::Or => Opcode::Or,
        Op::Xor => Opcode::Xor,
        Op::ShiftLeft => Opcode::ShiftLeft,
        Op::ShiftRight => Opcode::ShiftRight,
        Op::Equal => Opcode::Equal,
        Op::NotEqual => Opcode::NotEqual,
        Op::Less => Opcode::Less,
        Op::LessEqual => Opcode::LessEqual,
        Op::Greater => Opcode::Less,
        Op::GreaterEqual => Opcode::LessEqual,
    }
}

// The operands in the order in which the question is asked.
fn ordered(op: Op, a: u32, b: u32) -> (u32, u32)
    ensures first { result.0 ≡ (if op_swaps op then b else a) }
    ensures second { result.1 ≡ (if op_swaps op then a else b) }
    ensures below { (n : ℕ) → a < n → b < n → (result.0 < n) × (result.1 < n) }
{
    match op {
        Op::Greater | Op::GreaterEqual => (b, a),
        _ => (a, b),
    }
}

fn binary(op: Op, a: Operand, b: Operand, builder: &mut StepBuilder) -> Result<Operand, AllocError>
    requires typed { 0 < op_width op a.width b.width }
    requires left { a.slot < length builder.old.slots }
    requires right { b.slot < length builder.old.slots }
    ensures adds { IfOk result (λ p. Adds builder.old builder.new p.slot) }
    ensures width { IfOk result (λ p. p.width ≡ op_width op a.width b.width) }
    ensures makes { IfOk result (λ p. MakesTwo builder.old builder.new a b p (apply op)) }
{
    let mask = greatest(a.width);
    let width = op_width(op, a.width, b.width);
    let (x, y) = ordered(op, a.slot, b.slot);
    let slot = add_step(builder, opcode_of(op), x, y, 0, mask)?;
    Ok(Operand { slot, width })
}

fn part_select(
    from: Operand,
    high: u8,
    low: u8,
    builder: &mut StepBuilder,
) -> Result<Operand, AllocError>
    requires typed { 0 < part_select_width from.width high low }
    requires there { from.slot < length builder.old.slots }
    ensures adds { IfOk result (λ p. Adds builder.old builder.new p.slot) }
    ensures width { IfOk result (λ p. p.width ≡ part_select_width from.width high low) }
    ensures makes { IfOk result (λ p. MakesOne builder.old builder.new from p (λ w. part_select w high low)) }
{
    let width = part_select_width(from.width, high, low);
    let mask = greatest(width);
    let slot = add_step(builder, Opcode::PartSelect, from.slot, from.slot, low, mask)?;
    Ok(Operand { slot, width })
}

fn concatenated(
    left: Operand,
    right: Operand,
    builder: &mut StepBuilder,
) -> Result<Operand, AllocError>
    requires typed { 0 < concatenation_width left.width right.width }
    requires left { left.slot < length builder.old.slots }
    requires right { right.slot < length builder.old.slots }
    ensures adds { IfOk result (λ p. Adds builder.old builder.new p.slot) }
    ensures width { IfOk result (λ p. p.width ≡ concatenation_width left.width right.width) }
    ensures makes { IfOk result (λ p. MakesTwo builder.old builder.new left right p concatenated) }
{
    let width = concatenation_width(left.width, right.width);
    let slot = add_step(
        builder,
        Opcode::Concatenation,
        left.slot,
        right.slot,
        right.width,
        0,
    )?;
    Ok(Operand { slot, width })
}

fn conditional(
    test: Operand,
    a: Operand,
    b: Operand,
    builder: &mut StepBuilder,
) -> Result<Operand, AllocError>
    requires typed { 0 < conditional_width test.width a.width b.width }
    requires test { test.slot < length builder.old.slots }
    requires first { a.slot < length builder.old.slots }
    requires second { b.slot < length builder.old.slots }
    ensures adds { IfOk result (λ p. Adds builder.old builder.new p.slot) }
    ensures width { IfOk result (λ p. p.width ≡ conditional_width test.width a.width b.width) }
    ensures makes { IfOk result (λ p. MakesThree builder.old builder.new test a b p conditional) }
{
    let other = u64::from(b.slot);
    let slot = add_step(builder, Opcode::Conditional, test.slot, a.slot, 0, other)?;
    let width = conditional_width(test.width, a.width, b.width);
    Ok(Operand { slot, width })
}

fn fetched(
    memory: Net,
    at: Operand,
    operands: &Operands,
    builder: &mut StepBuilder,
) -> Result<Operand, AllocError>
    requires typed { 0 < memory_word_width at.width (widths_in operands.now memory).index (widths_in operands.now memory).word }
    requires there { at.slot < length builder.old.slots }
    ensures adds { IfOk result (λ p. Adds builder.old builder.new p.slot) }
    ensures width { IfOk result (λ p. p.width ≡ (widths_in operands.now memory).word) }
    ensures makes { IfOk result (λ p. Fetches builder.old builder.new operands.now memory at p) }
{
    match memory {
        Net::Memory(i) => {
            let width = word_width(operands, i);
            let number = u64::from(i);
            let slot = add_step(builder, Opcode::Fetch, at.slot, at.slot, 0, number)?;
            Ok(Operand { slot, width })
        }
        _ => unreachable!(),
    }
}

/// Adds the steps of an expression, and gives the operand of its value.
#[cycle(value)]
pub fn value_of(
    e: &Expr<Net>,
    operands: &Operands,
    builder: &mut StepBuilder,
) -> Result<Operand, AllocError>
    requires typed { 0 < width_of (scope_of operands.now) (tree_of e.now) }
    requires operands { AreOperands operands.now (length builder.old.slots) }
    ensures adds { IfOk result (λ p. Adds builder.old builder.new p.slot) }
    ensures width { IfOk result (λ p. p.width ≡ width_of (scope_of operands.now) (tree_of e.now)) }
    ensures values { IfOk result (λ p. Values builder.old builder.new operands.now (tree_of e.now) p) }
{
    match e {
        Expr::Const(word) => {
            let slot = constant(builder, word.value)?;
            let width = word.width;
            Ok(Operand { slot, width })
        }
        Expr::Read(net) => Ok(operand_of(operands, *net)),
        Expr::Bit(net, at) => {
            let from = operand_of(operands, *net);
            let operand = part_select(from, *at, *at, builder)?;
            Ok(operand)
        }
        Expr::PartSelect(net, high, low) => {
            let from = operand_of(operands, *net);
            let operand = part_select(from, *high, *low, builder)?;
            Ok(operand)
        }
        Expr::MemoryWord(memory, index) => {
            let at = value_of(index, operands, builder)?;
            let operand = fetched(*memory, at, operands, builder)?;
            Ok(operand)
        }
        Expr::Unary(unary_op, a) => {
            let argument = value_of(a, operands, builder)?;
            let operand = apply_unary(*unary_op, argument, builder)?;
            Ok(operand)
        }
        Expr::Binary(op, a, b) => {
            let left = value_of(a, operands, builder)?;
            let right = value_of(b, operands, builder)?;
            let operand = binary(*op, left, right, builder)?;
            Ok(operand)
        }
        Expr::Conditional(c, a, b) => {
            let test = value_of(c, operands, builder)?;
            let first = value_of(a, operands, builder)?;
            let second = value_of(b, operands, builder)?;
            let operand = conditional(test, first, second, builder)?;
            Ok(operand)
        }
        Expr::Concatenation(parts) => {
            let operand = parts_of(parts, operands, builder)?;
            Ok(operand)
        }
    }
}

#[cycle(value)]
fn parts_of(
    parts: &Parts<Net>,
    operands: &Operands,
    builder: &mut StepBuilder,
) -> Result<Operand, AllocError>
    requires typed { 0 < parts_width (scope_of operands.now) (trees_of parts.now) }
    requires operands { AreOperands operands.now (length builder.old.slots) }
    ensures adds { IfOk result (λ p. Adds builder.old builder.new p.slot) }
    ensures width { IfOk result (λ p. p.width ≡ parts_width (scope_of operands.now) (trees_of parts.now)) }
    ensures values { IfOk result (λ p. PartValues builder.old builder.new operands.now (trees_of parts.now) p) }
{
    match parts {
        Parts::Last(a) => {
            let operand = value_of(a, operands, builder)?;
            Ok(operand)
        }
        Parts::More(a, more) => {
            let first = value_of(a, operands, builder)?;
            let operand = joined(first, more, operands, builder)?;
            Ok(operand)
        }
    }
}

// A word before parts, one after another.
#[cycle(value)]
fn joined(
    first: Operand,
    parts: &Parts<Net>,
    operands: &Operands,
    builder: &mut StepBuilder,
) -> Result<Operand, AllocError>
    requires typed { 0 < concatenation_width first.width (parts_width (scope_of operands.now) (trees_of parts.now)) }
    requires first { first.slot < length builder.old.slots }
    requires operands { AreOperands operands.now (length builder.old.slots) }
    ensures adds { IfOk result (λ p. Adds builder.old builder.new p.slot) }
    ensures width { IfOk result (λ p. p.width ≡ concatenation_width first.width (parts_width (scope_of operands.now) (trees_of parts.now))) }
    ensures joins { IfOk result (λ p. Joins builder.old builder.new operands.now first (trees_of parts.now) p) }
{
    let mut front = first;
    let mut left = parts;
    while let Parts::More(a, more) = left {
        let next = value_of(a, operands, builder)?;
        front = concatenated(front, next, builder)?;
        left = more;
    }
    match left {
        Parts::Last(a) => {
            let last = value_of(a, operands, builder)?;
            let operand = concatenated(front, last, builder)?;
            Ok(operand)
        }
        Parts::More(..) => unreachable!(),
    }
}

/// Adds the steps of a wire's right side, and gives the operand of its value.
pub fn right_value_of(
    right: &Right<Net>,
    operands: &Operands,
    builder: &mut StepBuilder,
) -> Result<Operand, AllocError>
    requires typed { 0 < right_width (scope_of operands.now) (right_of right.now) }
    requires operands { AreOperands operands.now (length builder.old.slots) }
    ensures adds { IfOk result (λ p. Adds builder.old builder.new p.slot) }
    ensures width { IfOk result (λ p. p.width ≡ right_width (scope_of operands.now) (right_of right.now)) }
    ensures values { IfOk result (λ p. RightValues builder.old builder.new operands.now (right_of right.now) p) }
{
    match right {
        Right::Plain(e) => {
            let operand = value_of(e, operands, builder)?;
            Ok(operand)
        }
        Right::Quotient(a, b) => {
            let left = operand_of(operands, *a);
            let right = operand_of(operands, *b);
            let slot = add_step(builder, Opcode::Quotient, left.slot, right.slot, 0, 0)?;
            let width = left.width;
            Ok(Operand { slot, width })
        }
        Right::Remainder(a, b) => {
            let left = operand_of(operands, *a);
            let right = operand_of(operands, *b);
            let slot = add_step(builder, Opcode::Remainder, left.slot, right.slot, 0, 0)?;
            let width = left.width;
            Ok(Operand { slot, width })
        }
    }
}
