//! The steps that a design is compiled into, and running them.

ghost use Rattle.std.specs.Prelude.{◌≡◌, ◌/◌, ◌%◌, [], length, slice_index_or};
ghost use Rattle.clock_sim.specs.Steps.{given, run};
ghost use Rattle.clock_sim.specs.Flat.{IsReading, AreReading};
ghost use Rattle.clock_sim.specs.Orders.{AreOf, AreGroups};

use crate::memory::MemoryWords;

/// What a step works out from its operands `x` and `y`, the words at its slots `a` and `b`.
#[derive(Clone, Copy, PartialEq, Eq, Debug)]
pub enum Opcode {
    /// `x + y`, cut by the mask `number`.
    Add,
    /// `x - y`, cut by the mask `number`.
    Subtract,
    /// `x * y`, cut by the mask `number`.
    Multiply,
    And,
    Or,
    Xor,
    /// `x << y`, cut by the mask `number`.
    ShiftLeft,
    ShiftRight,
    Equal,
    NotEqual,
    Less,
    LessEqual,
    /// The mask `number` less `x`: each bit turned.
    Complement,
    /// Whether `x` is not zero.
    ReduceOr,
    /// `x >> shift`, cut by the mask `number`.
    PartSelect,
    /// `(x << shift) + y`.
    Concatenation,
    /// `y`, or the word at the slot `number` where `x` is zero.
    Conditional,
    /// The word at `x` of the memory `number`.
    Fetch,
    /// `x / y`, where `y` is not zero.
    Quotient,
    /// `x % y`, where `y` is not zero.
    Remainder,
}

/// One step: two operands, and the slot for what it gives. No widths are kept: masks and shifts stand for them.
#[derive(Clone, Copy, PartialEq, Eq, Debug)]
pub struct Step {
    pub number: u64,
    pub a: u32,
    pub b: u32,
    pub to: u32,
    pub shift: u8,
    pub opcode: Opcode,
}

// What a step gives.
#[inline(always)]
fn given(step: Step, contents: &[MemoryWords], slots: &[u64]) -> u64
    requires { IsReading (length slots.now) step }
    ensures { result ≡ given contents.now slots.now step }
{
    let x = slots[step.a as usize];
    let y = slots[step.b as usize];
    let number = step.number;
    match step.opcode {
        Opcode::Add => x.wrapping_add(y) & number,
        Opcode::Subtract => x.wrapping_sub(y) & number,
        Opcode::Multiply => x.wrapping_mul(y) & number,
        Opcode::And => x & y,
        Opcode::Or => x | y,
        Opcode::Xor => x ^ y,
        Opcode::ShiftLeft => { if y < 64 { (x << y) & number } else { 0 } }
        Opcode::ShiftRight => { if y < 64 { x >> y } else { 0 } }
        Opcode::Equal => u64::from(x == y),
        Opcode::NotEqual => u64::from(x != y),
        Opcode::Less => u64::from(x < y),
        Opcode::LessEqual => u64::from(x <= y),
        Opcode::Complement => number.saturating_sub(x),
        Opcode::ReduceOr => u64::from(x != 0),
        Opcode::PartSelect => x.wrapping_shr(u32::from(step.shift)) & number,
        Opcode::Concatenation => x.wrapping_shl(u32::from(step.shift)).wrapping_add(y),
        Opcode::Conditional => {
            // Which of the two is taken cannot be foreseen, so its slot is looked up: a branch would often be mistaken.
            let from = [number as u32, step.b];
            slots[from[usize::from(x != 0)] as usize]
        }
        Opcode::Fetch => fetched(contents, number as usize, x as usize),
        Opcode::Quotient => quotient(x, y),
        Opcode::Remainder => remainder(x, y),
    }
}

// The word of a memory at an index, or 0 where there is none.
#[inline(always)]
fn fetched(contents: &[MemoryWords], memory: usize, at: usize) -> u64
    ensures { result ≡ slice_index_or (slice_index_or contents.now memory []) at 0 }
{
    if memory < contents.len() {
        contents[memory].read(at)
    } else {
        0
    }
}

fn quotient(x: u64, y: u64) -> u64
    ensures { result ≡ x / y }
{
    if y == 0 { 0 } else { x / y }
}

fn remainder(x: u64, y: u64) -> u64
    ensures { result ≡ x % y }
{
    if y == 0 { x } else { x % y }
}

/// So many steps of one kind, side by side.
#[derive(Clone, Copy, PartialEq, Eq, Debug)]
pub struct Group {
    pub opcode: Opcode,
    pub count: usize,
}

// Runs steps of one kind. Where it is called the kind is known, so that no step asks for it.
#[inline(always)]
fn run_as(opcode: Opcode, steps: &[Step], contents: &[MemoryWords], slots: &mut [u64])
    requires steps { AreReading (length slots.old) steps.now }
    requires opcode { AreOf opcode steps.now }
    ensures { slots.new ≡ run contents.now steps.now slots.old }
{
    for step in steps {
        let step = Step { opcode, ..*step };
        let word = given(step, contents, slots);
        slots[step.to as usize] = word;
    }
}

// Runs steps of one kind.
fn run_group(opcode: Opcode, steps: &[Step], contents: &[MemoryWords], slots: &mut [u64])
    requires steps { AreReading (length slots.old) steps.now }
    requires opcode { AreOf opcode steps.now }
    ensures { slots.new ≡ run contents.now steps.now slots.old }
{
    match opcode {
        Opcode::Add => run_as(Opcode::Add, steps, contents, slots),
        Opcode::Subtract => run_as(Opcode::Subtract, steps, contents, slots),
        Opcode::Multiply => run_as(Opcode::Multiply, steps, contents, slots),
        Opcode::And => run_as(Opcode::And, steps, contents, slots),
        Opcode::Or => run_as(Opcode::Or, steps, contents, slots),
        Opcode::Xor => run_as(Opcode::Xor, steps, contents, slots),
        Opcode::ShiftLeft => run_as(Opcode::ShiftLeft, steps, contents, slots),
        Opcode::ShiftRight => run_as(Opcode::ShiftRight, steps, contents, slots),
        Opcode::Equal => run_as(Opcode::Equal, steps, contents, slots),
        Opcode::NotEqual => run_as(Opcode::NotEqual, steps, contents, slots),
        Opcode::Less => run_as(Opcode::Less, steps, contents, slots),
        Opcode::LessEqual => run_as(Opcode::LessEqual, steps, contents, slots),
        Opcode::Complement => run_as(Opcode::Complement, steps, contents, slots),
        Opcode::ReduceOr => run_as(Opcode::ReduceOr, steps, contents, slots),
        Opcode::PartSelect => run_as(Opcode::PartSelect, steps, contents, slots),
        Opcode::Concatenation => run_as(Opcode::Concatenation, steps, contents, slots),
        Opcode::Conditional => run_as(Opcode::Conditional, steps, contents, slots),
        Opcode::Fetch => run_as(Opcode::Fetch, steps, contents, slots),
        Opcode::Quotient => run_as(Opcode::Quotient, steps, contents, slots),
        Opcode::Remainder => run_as(Opcode::Remainder, steps, contents, slots),
    }
}

/// Runs steps one after another, which stand in these groups.
pub fn run(groups: &[Group], steps: &[Step], contents: &[MemoryWords], slots: &mut [u64])
    requires steps { AreReading (length slots.old) steps.now }
    requires groups { AreGroups groups.now steps.now }
    ensures { slots.new ≡ run contents.now steps.now slots.old }
{
    let mut left = steps;
    for group in groups {
        let (prefix, rest) = left.split_at(group.count);
        run_group(group.opcode, prefix, contents, slots);
        left = rest;
    }
}
