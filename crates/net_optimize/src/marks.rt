//! Marks of wires, by which those of one mark are found without a look at all others.

use std::alloc::{AllocError, Global};
use std::collections::HashMap;

/// The marks of wires, and of each mark the first wire that has it.
#[derive(Drop)]
pub(crate) struct Marks {
    marks: Vec<u64>,
    firsts: HashMap<u64, u32>,
}

impl Marks {
    pub(crate) fn new(alloc: Global) -> Marks {
        Marks {
            marks: Vec::new(alloc),
            firsts: HashMap::new(alloc),
        }
    }

    /// The first wire that has a mark, or how many wires there are where none has it.
    pub(crate) fn first(&self, mark: u64) -> usize {
        match self.firsts.get(&mark) {
            Some(first) => *first as usize,
            None => self.marks.len(),
        }
    }

    /// Whether a wire has a mark.
    pub(crate) fn has(&self, wire: usize, mark: u64) -> bool {
        self.marks.get(wire).copied() == Some(mark)
    }

    /// Adds the mark of the next wire.
    pub(crate) fn push(&mut self, mark: u64) -> Result<(), AllocError> {
        if !self.firsts.contains_key(&mark) {
            let next = u32::try_from(self.marks.len()).unwrap_or(u32::MAX);
            self.firsts.insert(mark, next)?;
        }
        Ok(self.marks.push(mark)?)
    }
}
