//! Guesses which registers hold the same and which wires have one value. What is guessed is tested where it is used.

ghost use Rattle.std.specs.Prelude.{◌≡◌, ◌≤◌, length, IfOk};

use crate::equal_registers::mark::{Known, mixed, right_mark, set_mark};
use crate::equal_registers::readers::{Readers, Stale, readers_of};
use crate::equal_registers::settings::Setting;
use net_core::design::{Design, Wire};
use net_core::tree::{Net, Word};
use std::alloc::{AllocError, Global};
use std::collections::HashMap;

/// How often registers are told apart by what they are set to. What differs at one end of a pipeline differs at its other end after as
/// many rounds as it has stages, which are 256 at most.
const ROUNDS: u32 = 1000;

/// For each register and for each wire the first one that seems to hold the same.
#[derive(Drop)]
pub(crate) struct Guess {
    pub(crate) registers: Vec<u32>,
    pub(crate) wires: Vec<u32>,
}

// For each mark the place of the first one that is equal.
fn grouped(alloc: Global, marks: &[u64]) -> Result<Vec<u32>, AllocError>
    requires { length marks.now ≤ 4294967295 }
    ensures { IfOk result (λ firsts. length firsts.items ≡ length marks.now) }
{
    let mut places = HashMap::new(alloc);
    let mut firsts = Vec::new(alloc);
    for k in 0..marks.len() {
        let first = *places.entry(marks[k])?.or_insert(k as u32);
        firsts.push(first)?;
    }
    Ok(firsts)
}

// How many of these are the first ones.
fn classes(firsts: &[u32]) -> usize {
    firsts
        .iter()
        .enumerate()
        .filter(|(k, first)| **first as usize == *k)
        .count()
}

fn word_marks(alloc: Global, words: &[Word]) -> Result<Vec<u64>, AllocError>
    ensures { IfOk result (λ marks. length marks.items ≡ length words.now) }
{
    let mut marks = Vec::new(alloc);
    for word in words {
        marks.push(mixed(mixed(17, u64::from(word.width)), word.value))?;
    }
    Ok(marks)
}

// What marks are found of.
#[derive(Clone, Copy)]
struct Sources<'a> {
    wires: &'a [Wire],
    lists: &'a [Vec<Setting<'a>>],
    readers: &'a Readers,
}

// Sets a mark. Answers whether it is another one.
fn changes(marks: &mut [u64], k: usize, mark: u64) -> bool {
    match marks.get_mut(k) {
        Some(old) if *old != mark => {
            *old = mark;
            true
        }
        _ => false,
    }
}

// Marks wires again, in their order, since a wire reads earlier ones.
fn mark_wires(sources: Sources, registers: &[u32], stale: &mut Stale, marks: &mut [u64]) {
    let mut at: u32 = 0;
    for wire in sources.wires {
        let k = at as usize;
        if stale.take_wire(k) {
            let known = Known {
                registers,
                wires: marks,
            };
            let mark = right_mark(known, &wire.right);
            if changes(marks, k, mark) {
                sources.readers.note(Net::Wire(at), stale);
            }
        }
        at = at.saturating_add(1);
    }
}

// Marks registers again by their classes and by what they are set to.
fn mark_registers(sources: Sources, known: Known, stale: &mut Stale, marks: &mut [u64]) {
    for k in 0..known.registers.len() {
        if stale.take_register(k)
            && let Some(list) = sources.lists.get(k)
        {
            let mark = set_mark(known, known.registers[k], list);
            changes(marks, k, mark);
        }
    }
}

// Registers of other classes than before are to be marked again, and so is what reads them.
fn note_classes(readers: &Readers, old: &[u32], new: &[u32], stale: &mut Stale) {
    let mut at: u32 = 0;
    for class in new {
        if old.get(at as usize).copied() != Some(*class) {
            stale.note(Net::Register(at));
            readers.note(Net::Register(at), stale);
        }
        at = at.saturating_add(1);
    }
}

/// Guesses from the first words of registers and from what they are set to, as long as that tells more of them apart. What the registers
/// are set to stands in these lists.
pub(crate) fn guessed(
    alloc: Global,
    design: &Design,
    words: &[Word],
    lists: &[Vec<Setting>],
) -> Result<Guess, AllocError>
    requires words { length words.now ≤ 4294967295 }
    requires wires { length design.now.wires.items ≤ 4294967295 }
    ensures { IfOk result (λ guess. length guess.registers.items ≡ length words.now) }
{
    let readers = readers_of(alloc, &design.wires, lists)?;
    let sources = Sources {
        wires: &design.wires,
        lists,
        readers: &readers,
    };
    let mut stale = Stale::all(alloc, words.len(), design.wires.len())?;
    let mut registers = grouped(alloc, &word_marks(alloc, words)?)?;
    let mut marks = vec![in alloc; 0u64; words.len()]?;
    let mut wire_marks = vec![in alloc; 0u64; design.wires.len()]?;
    for _ in 0..ROUNDS {
        mark_wires(sources, &registers, &mut stale, &mut wire_marks);
        let known = Known {
            registers: &registers,
            wires: &wire_marks,
        };
        mark_registers(sources, known, &mut stale, &mut marks);
        let next = grouped(alloc, &marks)?;
        if classes(&next) == classes(&registers) {
            break;
        }
        note_classes(&readers, &registers, &next, &mut stale);
        registers = next;
    }
    let wires = grouped(alloc, &wire_marks)?;
    Ok(Guess { registers, wires })
}
