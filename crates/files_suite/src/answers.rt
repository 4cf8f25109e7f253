//! The calls that know no shelf and no sink.

use crate::known::Known;
use crate::words::words_of;
use crate::{beats, readers};
use anyhow::{Result, bail};
use command_line::read_words;
use std::alloc::Global;

/// Makes a call, and says what it gives.
pub(crate) fn answer(alloc: Global, known: &Known, line: &[&str]) -> Result<String> {
    match line {
        ["ask", row @ ..] => {
            let words = words_of(alloc, known, row)?;
            let command = read_words(alloc, &words);
            Ok(format!(in alloc; "{command:?}")?)
        }
        ["frames", full, last, next] => beats::framed(alloc, full, last, next),
        ["fields", bytes, id] => readers::fields(alloc, known.get(bytes)?, id.parse()?),
        ["next", count, bytes] => readers::packets(alloc, known.get(bytes)?, count.parse()?),
        _ => bail!("no such line"),
    }
}
