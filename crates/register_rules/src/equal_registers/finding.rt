//! Registers of a design that hold the same in every clock.

ghost use Rattle.std.specs.Prelude.{IfOk};
ghost use Rattle.net_core.specs.View.{netlist_of};
ghost use Rattle.register_rules.specs.EqualRegisters.Equal.{StayEqual};

use crate::equal_registers::guessing::guessed;
use crate::equal_registers::repeating::{declared_words, unlike};
use crate::equal_registers::settings::listed;
use crate::equal_registers::wires::equal_wires;
use net_core::design::Design;
use std::alloc::{AllocError, Global};

/// How often what was guessed is corrected.
const ROUNDS: u32 = 8;

// Lists these registers as themselves.
fn correct(firsts: &mut [u32], others: &[u32]) {
    for k in others {
        if let Some(first) = firsts.get_mut(*k as usize) {
            *first = *k;
        }
    }
}

/// For each register one that holds the same in every clock: the first such one that is found, or itself.
pub fn equal_registers(alloc: Global, design: &Design) -> Result<Vec<u32>, AllocError>
    ensures { IfOk result (λ firsts. StayEqual (netlist_of design.now) firsts.items) }
{
    let words = declared_words(alloc, &design.declared)?;
    if words.len() >= u32::MAX as usize || design.wires.len() >= u32::MAX as usize {
        return Ok(Vec::new(alloc));
    }
    let count = words.len();
    let lists = listed(alloc, &design.always, count)?;
    let mut guess = guessed(alloc, design, &words, &lists)?;
    for _ in 0..ROUNDS {
        let wires = equal_wires(alloc, &design.wires, &guess.registers, &guess.wires)?;
        let others = unlike(alloc, &words, &guess.registers, &wires, &lists)?;
        if others.is_empty() {
            return Ok(guess.registers);
        }
        correct(&mut guess.registers, &others);
    }
    Ok(Vec::new(alloc))
}
