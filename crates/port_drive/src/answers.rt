//! The answers of a drive.

ghost use Rattle.std.specs.Prelude.{◌≡◌, ◌<◌, ◌++◌, ◌∷◌, ◌==◌, [], Some, length, slice_get, OnOk, OnErr};
ghost use Rattle.beat_core.specs.Words.{low_bytes};

use beat_core::Answer;
use byteorder::{ByteOrder, LittleEndian};
use std::alloc::{AllocError, Global};
use std::marker::Model;

/// Answers in the order in which they were given. Contracts see the list of them.
#[derive(Debug, Drop)]
pub struct Answers {
    items: Vec<Answer>,
}

impl Model for Answers {
    ghost use Rattle.std.specs.Prelude.{List};
    ghost use Rattle.beat_core.specs.declared.answer.Answer.{Answer};

    ghost Value = { List Answer };

    ghost view = { λ a. a.items.items };
}

impl Answers {
    /// No answers. It takes no memory.
    pub fn new(alloc: Global) -> Answers
        ensures { result ≡ [] }
    {
        Answers {
            items: Vec::new(alloc),
        }
    }

    /// How many there are.
    pub fn len(&self) -> usize
        ensures { result ≡ length self.now }
    {
        self.items.len()
    }

    /// Whether there are none.
    pub fn is_empty(&self) -> bool
        ensures { result ≡ (length self.now == 0) }
    {
        self.items.is_empty()
    }

    /// The answer at a place, from 0 on.
    pub fn get(&self, i: usize) -> &Answer
        requires { i < length self.now }
        ensures { slice_get self.now i ≡ Some result.now }
    {
        &self.items[i]
    }

    /// One more answer. An `Err` changes nothing.
    pub fn push(&mut self, answer: Answer) -> Result<(), AllocError>
        ensures ok { OnOk result (self.new ≡ self.old ++ answer ∷ []) }
        ensures err { OnErr result (self.new ≡ self.old) }
    {
        self.items.push(answer)?;
        Ok(())
    }
}

/// The bytes of a word, the lowest first.
pub(crate) fn bytes_of_word(word: u64) -> [u8; 8]
    ensures { result ≡ low_bytes 8 word }
{
    let mut bytes = [0; 8];
    LittleEndian::write_u64(&mut bytes, word);
    bytes
}
