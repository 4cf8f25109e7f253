//! Bytes by name, and what the words of a line make of them.

use crate::cases::numbers::front;
use anyhow::{Context, Result};
use std::alloc::Global;
use std::collections::BTreeMap;

/// Bytes by name, and the name that was given last.
#[derive(Drop)]
pub(crate) struct Named {
    alloc: Global,
    all: BTreeMap<String, Vec<u8>>,
    last: String,
}

impl Named {
    /// No names.
    pub(crate) fn new(alloc: Global) -> Named {
        Named {
            alloc,
            all: BTreeMap::new(alloc),
            last: String::new(alloc),
        }
    }

    /// Gives bytes a name.
    pub(crate) fn keep(&mut self, name: &str, bytes: Vec<u8>) -> Result<()> {
        self.last = String::from_str(self.alloc, name)?;
        self.all.insert(self.last.clone()?, bytes)?;
        Ok(())
    }

    /// Gives the bytes that words make a name.
    pub(crate) fn name(&mut self, rest: &str) -> Result<()> {
        let (name, words) = front(rest);
        let bytes = self.bytes(words)?;
        self.keep(name, bytes)
    }

    /// Adds the bytes that words make to those of the last name.
    pub(crate) fn more(&mut self, words: &str) -> Result<()> {
        let more = self.bytes(words)?;
        let bytes = self.all.get_mut(self.last.as_str()).context("no name yet")?;
        bytes.extend_from_slice(&more)?;
        Ok(())
    }

    /// The bytes that words make.
    pub(crate) fn bytes(&self, words: &str) -> Result<Vec<u8>> {
        let mut bytes = Vec::new(self.alloc);
        for word in words.split_whitespace() {
            self.take(&mut bytes, word)
                .context(format_args!("the bytes {word:?}"))?;
        }
        Ok(bytes)
    }

    // Does to bytes what a word says.
    fn take(&self, bytes: &mut Vec<u8>, word: &str) -> Result<()> {
        if let Some(name) = word.strip_prefix('@') {
            let known = self.all.get(name).context("no such name")?;
            Ok(bytes.extend_from_slice(known)?)
        } else if let Some(count) = word.strip_prefix("..") {
            bytes.truncate(count.parse()?);
            Ok(())
        } else if let Some((place, digits)) = word.split_once(':') {
            write_over(bytes, place.parse()?, &hex::decode(self.alloc, digits)?)
        } else if let Some((count, digits)) = word.split_once('*') {
            add_copies(bytes, count.parse()?, &hex::decode(self.alloc, digits)?)
        } else {
            add_copies(bytes, 1, &hex::decode(self.alloc, word)?)
        }
    }
}

// Writes bytes over those from a place on.
fn write_over(bytes: &mut [u8], place: usize, new: &[u8]) -> Result<()> {
    let behind = bytes.get_mut(place..).context("a place behind the end")?;
    for (i, byte) in new.iter().enumerate() {
        *behind.get_mut(i).context("bytes behind the end")? = *byte;
    }
    Ok(())
}

// Adds bytes so many times.
fn add_copies(bytes: &mut Vec<u8>, count: usize, new: &[u8]) -> Result<()> {
    for _ in 0..count {
        bytes.extend_from_slice(new)?;
    }
    Ok(())
}
