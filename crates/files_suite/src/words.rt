//! Words of the command.

use crate::known::Known;
use anyhow::Result;
use command_line::Words;
use std::alloc::Global;
use std::str;

/// The words of a row. One after an `@` stands for the words of known bytes, with one space between any two.
pub(crate) fn words_of(alloc: Global, known: &Known, row: &[&str]) -> Result<Words> {
    let mut words = Words::new(alloc);
    for word in row {
        match word.strip_prefix('@') {
            Some(name) => {
                for word in str::from_utf8(known.get(name)?)?.split(' ') {
                    words.push(word)?;
                }
            }
            None => words.push(word)?,
        }
    }
    Ok(words)
}
