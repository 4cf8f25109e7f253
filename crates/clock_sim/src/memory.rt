//! The words of a memory.

ghost use Rattle.std.specs.Prelude.{◌≡◌, ◌^◌, ◌≤◌, replicate, slice_index_or, slice_set, IfOk};

use std::alloc::{AllocError, Global};
use std::marker::Model;

/// The words of a memory, by their index.
#[derive(Drop)]
pub struct MemoryWords {
    words: Vec<u64>,
}

impl Model for MemoryWords {
    ghost use Rattle.std.specs.Prelude.{List, ℕ};

    ghost Value = { List ℕ };

    ghost view = { λ b. b.words.items };
}

impl MemoryWords {
    /// A memory of 2 to the power `index` equal words.
    pub fn new(alloc: Global, index: u8, first: u64) -> Result<MemoryWords, AllocError>
        requires { index ≤ 16 }
        ensures { IfOk result (λ b. b ≡ replicate (2 ^ index) first) }
    {
        let words = vec![in alloc; first; 1usize << index]?;
        Ok(MemoryWords { words })
    }

    /// The word at an index, or 0 where there is none.
    #[inline(always)]
    pub fn read(&self, at: usize) -> u64
        ensures { result ≡ slice_index_or self.now at 0 }
    {
        if at < self.words.len() {
            self.words[at]
        } else {
            0
        }
    }

    /// Stores a word, where there is one at the index.
    pub fn store(&mut self, at: usize, word: u64)
        ensures { self.new ≡ slice_set self.old at word }
    {
        if at < self.words.len() {
            self.words[at] = word;
        }
    }
}
