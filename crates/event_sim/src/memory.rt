//! The words of a memory.

ghost use Rattle.std.specs.Prelude.{◌≡◌, ◌^◌, ◌≤◌, length, replicate, slice_index_or, slice_set, IfOk};
ghost use Rattle.net_core.specs.Value.{nothing};

use crate::values::NOTHING;
use net_core::tree::Word;
use std::alloc::{AllocError, Global};
use std::marker::Model;

/// The words of a memory, by their index.
#[derive(Drop)]
pub struct MemoryWords {
    words: Vec<Word>,
}

impl Model for MemoryWords {
    ghost use Rattle.std.specs.Prelude.{List};
    ghost use Rattle.net_core.specs.declared.tree.Word.{Word};

    ghost Value = { List Word };

    ghost view = { λ m. m.words.items };
}

impl MemoryWords {
    /// A memory of 2 to the power `index` equal words.
    pub fn new(alloc: Global, index: u8, first: Word) -> Result<MemoryWords, AllocError>
        requires { index ≤ 16 }
        ensures { IfOk result (λ m. m ≡ replicate (2 ^ index) first) }
    {
        let words = vec![in alloc; first; 1usize << index]?;
        Ok(MemoryWords { words })
    }

    /// The word at an index, or none.
    pub fn word(&self, at: usize) -> Word
        ensures { result ≡ slice_index_or self.now at nothing }
    {
        match self.words.get(at) {
            Some(word) => *word,
            None => NOTHING,
        }
    }

    /// Stores a word, where there is one at the index.
    pub fn store(&mut self, at: usize, word: Word)
        ensures { self.new ≡ slice_set self.old at word }
    {
        if at < self.words.len() {
            self.words[at] = word;
        }
    }

    /// Takes the words of another memory, which has as many.
    pub fn copy_from(&mut self, other: &MemoryWords)
        requires { length self.old ≡ length other.now }
        ensures { self.new ≡ other.now }
    {
        self.words.copy_from_slice(&other.words);
    }
}
