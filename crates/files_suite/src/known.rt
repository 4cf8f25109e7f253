//! The bytes that the cases name.

use crate::escapes::push_meant;
use anyhow::{Context, Result, bail, ensure};
use elf_view::object_of;
use flow_demo::make;
use shelf_core::{MemShelf, Shelf};
use std::alloc::Global;

/// The most bytes that an object's code may have here.
const CODE_LIMIT: usize = 65536;

/// Bytes by name.
#[derive(Drop)]
pub(crate) struct Known {
    alloc: Global,
    all: MemShelf,
    last: String,
}

impl Known {
    /// None yet.
    pub(crate) fn new(alloc: Global) -> Known {
        Known {
            alloc,
            all: MemShelf::new(alloc),
            last: String::new(alloc),
        }
    }

    /// The bytes of a name.
    pub(crate) fn get(&self, name: &str) -> Result<&[u8]> {
        self.all
            .held(name)
            .context(format_args!("no bytes are named {name}"))
    }

    /// Names bytes.
    pub(crate) fn name(&mut self, name: &str, bytes: &[u8]) -> Result<()> {
        self.all.hold(name, bytes)?;
        self.last.clear();
        self.last.push_str(name)?;
        Ok(())
    }

    /// Adds bytes to those that were named last.
    pub(crate) fn add(&mut self, bytes: &[u8]) -> Result<()> {
        self.all.append(&self.last, bytes)?;
        Ok(())
    }

    /// The bytes that a form stands for.
    pub(crate) fn bytes(&self, form: &[&str]) -> Result<Vec<u8>> {
        let alloc = self.alloc;
        match form {
            ["text", words @ ..] => text_bytes(alloc, words),
            ["hex", words @ ..] => hex_bytes(alloc, words),
            ["of", names @ ..] => self.joined(names),
            ["copies", count, byte] => copies(alloc, count.parse()?, hex::decode(alloc, *byte)?),
            ["first", count, name] => first(alloc, count.parse()?, self.get(name)?),
            ["over", place, digits, name] => {
                let change = hex::decode(alloc, *digits)?;
                changed(alloc, self.get(name)?, place.parse()?, &change)
            }
            ["object", name] => object_bytes(alloc, self.get(name)?),
            ["demo-object", seed, packets] => {
                Ok(make(alloc, seed.parse()?, packets.parse()?)?.object)
            }
            ["demo-capture", seed, packets] => {
                Ok(make(alloc, seed.parse()?, packets.parse()?)?.capture)
            }
            _ => bail!("no such form of bytes"),
        }
    }

    // The bytes of these names, one after the other.
    fn joined(&self, names: &[&str]) -> Result<Vec<u8>> {
        let mut bytes = Vec::new(self.alloc);
        for name in names {
            bytes.extend_from_slice(self.get(name)?)?;
        }
        Ok(bytes)
    }
}

// Words with one space between them.
fn text_bytes(alloc: Global, words: &[&str]) -> Result<Vec<u8>> {
    let mut bytes = Vec::new(alloc);
    for (i, word) in words.iter().enumerate() {
        if i > 0 {
            bytes.push(b' ')?;
        }
        push_meant(&mut bytes, word)?;
    }
    Ok(bytes)
}

// The bytes of digits.
fn hex_bytes(alloc: Global, words: &[&str]) -> Result<Vec<u8>> {
    let mut bytes = Vec::new(alloc);
    for word in words {
        bytes.extend_from_slice(&hex::decode(alloc, *word)?)?;
    }
    Ok(bytes)
}

// Bytes, so many times.
fn copies(alloc: Global, count: usize, unit: Vec<u8>) -> Result<Vec<u8>> {
    let mut bytes = Vec::new(alloc);
    for _ in 0..count {
        bytes.extend_from_slice(&unit)?;
    }
    Ok(bytes)
}

// The first bytes, so many.
fn first(alloc: Global, count: usize, bytes: &[u8]) -> Result<Vec<u8>> {
    let front = bytes.get(..count).context("fewer bytes than that")?;
    Ok(Vec::from_slice(alloc, front)?)
}

// Bytes, with others in place of those from a place on.
fn changed(alloc: Global, bytes: &[u8], place: usize, change: &[u8]) -> Result<Vec<u8>> {
    let mut all = Vec::from_slice(alloc, bytes)?;
    for (k, byte) in change.iter().enumerate() {
        let at = place.checked_add(k).context("a place too far")?;
        *all.get_mut(at).context("a place behind the end")? = *byte;
    }
    Ok(all)
}

// An object of one function `prog` with this code.
fn object_bytes(alloc: Global, code: &[u8]) -> Result<Vec<u8>> {
    ensure!(code.len() <= CODE_LIMIT, "too much code");
    Ok(object_of(alloc, "prog", code, &[], &[])?)
}
