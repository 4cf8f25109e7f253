//! What registers and memories store.

ghost use Rattle.std.specs.Prelude.{◌≡◌, ℕ, ◌<◌, [], length, slice_index_or, slice_set, IfOk, IsTrue};
ghost use Rattle.net_core.specs.Value.{nothing};
ghost use Rattle.net_core.specs.Clock.{first_words, first_memories};
ghost use Rattle.net_core.specs.Width.{declared_typed};
ghost use Rattle.event_sim.specs.Shapes.{HaveOneShape};

use crate::memory::MemoryWords;
use crate::values::{NOTHING, word_at};
use net_core::design::Declared;
use net_core::tree::Word;
use std::alloc::{AllocError, Global};
use std::marker::Model;

/// The words of registers and of memories, by their numbers.
#[derive(Drop)]
pub struct Held {
    registers: Vec<Word>,
    memories: Vec<MemoryWords>,
}

impl Model for Held {
    ghost use Rattle.net_core.specs.Clock.{Stored};
    ghost use Rattle.net_core.specs.Codes.{coded_stored};

    ghost Value = { Stored };

    ghost coded = { coded_stored };

    ghost view = { λ h. record { registers = h.registers.items; memories = h.memories.items } };
}

// Takes the words of as many other memories, each of which has as many words.
fn copy_memories(memories: &mut [MemoryWords], others: &[MemoryWords])
    requires count { length memories.old ≡ length others.now }
    requires each { (m : ℕ) → m < length memories.old → length (slice_index_or memories.old m []) ≡ length (slice_index_or others.now m []) }
    ensures { memories.new ≡ others.now }
{
    for at in 0..memories.len() {
        memories[at].copy_from(&others[at]);
    }
}

impl Held {
    /// The declared values.
    pub fn first(alloc: Global, declared: &[Declared]) -> Result<Held, AllocError>
        requires { IsTrue (declared_typed declared.now) }
        ensures { IfOk result (λ h. h ≡ record { registers = first_words declared.now; memories = first_memories declared.now }) }
    {
        let mut registers = Vec::new(alloc);
        let mut memories = Vec::new(alloc);
        for item in declared {
            match item {
                Declared::Integer => {}
                Declared::Register(word) => registers.push(*word)?,
                Declared::Memory { index, first, .. } => {
                    memories.push(MemoryWords::new(alloc, *index, *first)?)?;
                }
            }
        }
        Ok(Held {
            registers,
            memories,
        })
    }

    /// The word of a register, or none.
    pub fn register(&self, register: usize) -> Word
        ensures { result ≡ slice_index_or self.now.registers register nothing }
    {
        word_at(&self.registers, register)
    }

    /// The word of a memory at an index, or none.
    pub fn memory_word(&self, memory: usize, at: usize) -> Word
        ensures { result ≡ slice_index_or (slice_index_or self.now.memories memory []) at nothing }
    {
        match self.memories.get(memory) {
            Some(words) => words.word(at),
            None => NOTHING,
        }
    }

    /// Sets a register, where there is one.
    pub fn set(&mut self, register: usize, word: Word)
        ensures { self.new ≡ record self.old { registers = slice_set self.old.registers register word } }
    {
        if register < self.registers.len() {
            self.registers[register] = word;
        }
    }

    /// Stores a word in a memory, where there is one at the index.
    pub fn store(&mut self, memory: usize, at: usize, word: Word)
        ensures { self.new ≡ record self.old { memories = slice_set self.old.memories memory (slice_set (slice_index_or self.old.memories memory []) at word) } }
    {
        if memory < self.memories.len() {
            self.memories[memory].store(at, word);
        }
    }

    /// Takes what another stores, which has as many words everywhere.
    pub fn copy_from(&mut self, other: &Held)
        requires { HaveOneShape self.old other.now }
        ensures { self.new ≡ other.now }
    {
        self.registers.copy_from_slice(&other.registers);
        copy_memories(&mut self.memories, &other.memories);
    }
}
