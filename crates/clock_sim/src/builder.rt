//! The steps of a design as they are built, and the slots that they read and write.

ghost use Rattle.std.specs.Prelude.{◌≡◌, ◌<◌, None, [], length, replicate, IfOk};
ghost use Rattle.clock_sim.specs.Flat.{IsConsistent, IsThere, Adds, Works, Holds};

use crate::step::{Opcode, Step};
use std::alloc::{AllocError, Global};
use std::marker::Model;

/// The steps so far, and of each slot the word that always stands in it, or none where a clock writes it. Each step
/// reads and writes slots, and none a slot in which a word always stands.
#[derive(Drop)]
pub struct StepBuilder {
    steps: Vec<Step>,
    slots: Vec<Option<u64>>,
}

impl Model for StepBuilder {
    ghost use Rattle.clock_sim.specs.Flat.{Flat, IsConsistent};

    ghost Value = { Flat };

    ghost view = { λ b. record { steps = b.steps.items; slots = b.slots.items } };

    ghost invariant = { λ b. IsConsistent (record { steps = b.steps.items; slots = b.slots.items }) };
}

/// Where a word stands, and its width.
#[derive(Clone, Copy, PartialEq, Eq, Debug)]
pub struct Operand {
    pub slot: u32,
    pub width: u8,
}

// Slots that clocks write.
fn blank_slots(alloc: Global, count: usize) -> Result<Vec<Option<u64>>, AllocError>
    ensures { IfOk result (λ v. v.items ≡ replicate count None) }
{
    let mut slots = Vec::new(alloc);
    for _ in 0..count {
        slots.push(None)?;
    }
    Ok(slots)
}

impl StepBuilder {
    /// No steps, and so many slots that clocks write.
    pub fn new(alloc: Global, count: usize) -> Result<StepBuilder, AllocError>
        ensures { IfOk result (λ b. b ≡ record { steps = []; slots = replicate count None }) }
    {
        let slots = blank_slots(alloc, count)?;
        let steps = Vec::new(alloc);
        Ok(StepBuilder { steps, slots })
    }

    /// The steps and the slots.
    pub fn finish(self) -> (Vec<Step>, Vec<Option<u64>>)
        ensures parts { record { steps = result.0.items; slots = result.1.items } ≡ self }
        ensures consistent { IsConsistent self }
    {
        (self.steps, self.slots)
    }
}

/// A slot in which a word always stands.
pub fn constant(builder: &mut StepBuilder, word: u64) -> Result<u32, AllocError>
    ensures adds { IfOk result (λ slot. Adds builder.old builder.new slot) }
    ensures holds { IfOk result (λ slot. Holds builder.new slot word) }
{
    let Ok(slot) = u32::try_from(builder.slots.len()) else {
        return Err(AllocError);
    };
    builder.slots.push(Some(word))?;
    Ok(slot)
}

/// One more step, and the slot that it writes.
pub fn add_step(
    builder: &mut StepBuilder,
    opcode: Opcode,
    a: u32,
    b: u32,
    shift: u8,
    number: u64,
) -> Result<u32, AllocError>
    requires left { a < length builder.old.slots }
    requires right { b < length builder.old.slots }
    requires third { IsThere opcode number (length builder.old.slots) }
    ensures adds { IfOk result (λ to. Adds builder.old builder.new to) }
    ensures works { IfOk result (λ to. Works opcode a b shift number builder.old builder.new to) }
{
    let Ok(to) = u32::try_from(builder.slots.len()) else {
        return Err(AllocError);
    };
    builder.slots.push(None)?;
    builder.steps.push(Step {
        number,
        a,
        b,
        to,
        shift,
        opcode,
    })?;
    Ok(to)
}
