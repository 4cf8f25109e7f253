//! The assignments of a rising edge (IEEE 1364-2005, 9.2.2): all from the values before it.

ghost use Rattle.std.specs.Prelude.{◌≡◌, ◌<◌, true, [], ◌∷◌, length, map, OnOk, IfOk};
ghost use Rattle.net_core.specs.View.{statement_of, statements_of};
ghost use Rattle.net_core.specs.Width.{statement_typed, statements_typed};
ghost use Rattle.clock_sim.specs.Flat.{Adds, Extends, AreOperands, scope_of};
ghost use Rattle.clock_sim.specs.Edges.{applied, AreSlots, IsStore, AreStores, IsEdge, IsGuard, Picks, GuardsBoth, Opposes, GuardsAs, ExecutesOne, ExecutesMore, ExecutesAll, AreStatements, widths_at, sizes_of, taken};

use crate::builder::{StepBuilder, add_step, constant};
use crate::emit::value_of;
use crate::memory::MemoryWords;
use crate::operands::Operands;
use crate::step::Opcode;
use net_core::tree::{Net, Stmt, Stmts};
use std::alloc::AllocError;

/// A word that an edge stores in a memory, where the word at the slot `guard` is not zero.
#[derive(Clone, Copy, PartialEq, Eq, Debug)]
pub struct Store {
    pub guard: u32,
    pub memory: u32,
    pub at: u32,
    pub word: u32,
}

/// What a rising edge does: of each register the slot of its next word, and the stores in their order.
#[derive(Drop)]
pub struct Edge {
    pub next: Vec<u32>,
    pub stores: Vec<Store>,
}

// The first word where the guard holds, else the second.
fn picked(
    guard: Option<u32>,
    first: u32,
    second: u32,
    builder: &mut StepBuilder,
) -> Result<u32, AllocError>
    requires guard { IsGuard guard (length builder.old.slots) }
    requires first { first < length builder.old.slots }
    requires second { second < length builder.old.slots }
    ensures adds { IfOk result (λ slot. Adds builder.old builder.new slot) }
    ensures picks { IfOk result (λ slot. Picks builder.old builder.new guard first second slot) }
{
    match guard {
        None => Ok(first),
        Some(test) => {
            let other = u64::from(second);
            let slot = add_step(builder, Opcode::Conditional, test, first, 0, other)?;
            Ok(slot)
        }
    }
}

// Where a guard holds, and a test.
fn both(guard: Option<u32>, test: u32, builder: &mut StepBuilder) -> Result<u32, AllocError>
    requires guard { IsGuard guard (length builder.old.slots) }
    requires test { test < length builder.old.slots }
    ensures adds { IfOk result (λ slot. Adds builder.old builder.new slot) }
    ensures guards { IfOk result (λ slot. GuardsBoth builder.old builder.new guard test slot) }
{
    match guard {
        None => Ok(test),
        Some(outer) => {
            let zero = u64::from(outer);
            let slot = add_step(builder, Opcode::Conditional, outer, test, 0, zero)?;
            Ok(slot)
        }
    }
}

// Where a test is zero.
fn opposite(test: u32, builder: &mut StepBuilder) -> Result<u32, AllocError>
    requires test { test < length builder.old.slots }
    ensures adds { IfOk result (λ slot. Adds builder.old builder.new slot) }
    ensures opposes { IfOk result (λ slot. Opposes builder.old builder.new test slot) }
{
    let slot = add_step(builder, Opcode::Complement, test, test, 0, 1)?;
    Ok(slot)
}

// The slot of a guard.
fn guard_of(guard: Option<u32>, builder: &mut StepBuilder) -> Result<u32, AllocError>
    requires guard { IsGuard guard (length builder.old.slots) }
    ensures adds { IfOk result (λ slot. Adds builder.old builder.new slot) }
    ensures guards { IfOk result (λ slot. GuardsAs builder.old builder.new guard slot) }
{
    match guard {
        None => {
            let slot = constant(builder, 1)?;
            Ok(slot)
        }
        Some(slot) => Ok(slot),
    }
}

/// Adds the steps of a statement, done where the guard holds.
#[cycle(edge)]
pub fn add_statement(
    s: &Stmt<Net>,
    guard: Option<u32>,
    operands: &Operands,
    builder: &mut StepBuilder,
    edge: &mut Edge,
) -> Result<(), AllocError>
    requires typed { statement_typed (scope_of operands.now) (widths_at operands.now.registers.items) (sizes_of operands.now.memories.items) (statement_of s.now) ≡ true }
    requires operands { AreOperands operands.now (length builder.old.slots) }
    requires guard { IsGuard guard (length builder.old.slots) }
    requires edge { IsEdge edge.old operands.now builder.old }
    ensures extends { OnOk result (Extends builder.old builder.new) }
    ensures edge { OnOk result (IsEdge edge.new operands.now builder.new) }
    ensures executes { OnOk result (ExecutesOne builder.old builder.new operands.now guard (statement_of s.now) edge.old edge.new) }
{
    match s {
        Stmt::Block(more) => {
            add_statements(more, guard, operands, builder, edge)?;
            Ok(())
        }
        Stmt::If(c, a) => {
            let test = value_of(c, operands, builder)?;
            let inner = both(guard, test.slot, builder)?;
            add_statement(a, Some(inner), operands, builder, edge)?;
            Ok(())
        }
        Stmt::IfElse(c, a, b) => {
            let test = value_of(c, operands, builder)?;
            let inner = both(guard, test.slot, builder)?;
            let turned = opposite(test.slot, builder)?;
            let other = both(guard, turned, builder)?;
            add_statement(a, Some(inner), operands, builder, edge)?;
            add_statement(b, Some(other), operands, builder, edge)?;
            Ok(())
        }
        Stmt::Set(register, e) => {
            let value = value_of(e, operands, builder)?;
            let register = *register as usize;
            let slot = picked(guard, value.slot, edge.next[register], builder)?;
            edge.next[register] = slot;
            Ok(())
        }
        Stmt::Store(memory, index, e) => {
            let at = value_of(index, operands, builder)?;
            let word = value_of(e, operands, builder)?;
            let guard = guard_of(guard, builder)?;
            edge.stores.push(Store {
                guard,
                memory: *memory,
                at: at.slot,
                word: word.slot,
            })?;
            Ok(())
        }
    }
}

#[cycle(edge)]
fn add_statements(
    more: &Stmts<Net>,
    guard: Option<u32>,
    operands: &Operands,
    builder: &mut StepBuilder,
    edge: &mut Edge,
) -> Result<(), AllocError>
    requires typed { statements_typed (scope_of operands.now) (widths_at operands.now.registers.items) (sizes_of operands.now.memories.items) (statements_of more.now) ≡ true }
    requires operands { AreOperands operands.now (length builder.old.slots) }
    requires guard { IsGuard guard (length builder.old.slots) }
    requires edge { IsEdge edge.old operands.now builder.old }
    ensures extends { OnOk result (Extends builder.old builder.new) }
    ensures edge { OnOk result (IsEdge edge.new operands.now builder.new) }
    ensures executes { OnOk result (ExecutesMore builder.old builder.new operands.now guard (statements_of more.now) edge.old edge.new) }
{
    let mut left = more;
    while let Stmts::Then(s, rest) = left {
        add_statement(s, guard, operands, builder, edge)?;
        left = rest;
    }
    Ok(())
}

/// Adds the steps of all always blocks.
pub fn add_always(
    all: &[Stmt<Net>],
    operands: &Operands,
    builder: &mut StepBuilder,
    edge: &mut Edge,
) -> Result<(), AllocError>
    requires typed { AreStatements operands.now (map statement_of all.now) }
    requires operands { AreOperands operands.now (length builder.old.slots) }
    requires edge { IsEdge edge.old operands.now builder.old }
    ensures extends { OnOk result (Extends builder.old builder.new) }
    ensures edge { OnOk result (IsEdge edge.new operands.now builder.new) }
    ensures executes { OnOk result (ExecutesAll builder.old builder.new operands.now (map statement_of all.now) edge.old edge.new) }
{
    for s in all {
        add_statement(s, None, operands, builder, edge)?;
    }
    Ok(())
}

/// The words that the registers take.
pub fn gather(next: &[u32], slots: &[u64], words: &mut [u64])
    requires slots { AreSlots next.now (length slots.now) }
    requires count { length words.old ≡ length next.now }
    ensures { words.new ≡ taken next.now slots.now }
{
    for (i, slot) in next.iter().enumerate() {
        words[i] = slots[*slot as usize];
    }
}

// Makes a store, where its guard is not zero.
fn make(s: Store, slots: &[u64], contents: &mut [MemoryWords])
    requires { IsStore s (length slots.now) }
    ensures { contents.new ≡ applied slots.now (s ∷ []) contents.old }
{
    if slots[s.guard as usize] == 0 {
        return;
    }
    let at = slots[s.at as usize] as usize;
    let word = slots[s.word as usize];
    let memory = s.memory as usize;
    if memory < contents.len() {
        contents[memory].store(at, word);
    }
}

/// Makes the stores, one after another.
pub fn finish(stores: &[Store], slots: &[u64], contents: &mut [MemoryWords])
    requires { AreStores stores.now (length slots.now) }
    ensures { contents.new ≡ applied slots.now stores.now contents.old }
{
    for s in stores {
        make(*s, slots, contents);
    }
}
