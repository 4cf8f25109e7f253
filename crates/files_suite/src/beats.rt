//! Beats, and the frames that they make.

use anyhow::{Context, Result, ensure};
use beat_core::{Beat, frames_of};
use std::alloc::Global;
use std::fmt::Write;

// The beat that a word of a row is.
fn beat_of(word: &str) -> Result<Beat> {
    let (word, rest) = word.split_once(':').context("a word and a count")?;
    let (bytes, last) = match rest.strip_suffix(":last") {
        Some(bytes) => (bytes, true),
        None => (rest, false),
    };
    Ok(Beat {
        word: u64::from_str_radix(word, 16)?,
        bytes: bytes.parse()?,
        last,
    })
}

/// The frames that come in five clocks: none, a full beat, none, and two last beats.
pub(crate) fn framed(alloc: Global, full: &str, last: &str, next: &str) -> Result<String> {
    let (full, last, next) = (beat_of(full)?, beat_of(last)?, beat_of(next)?);
    ensure!(!full.last && full.bytes == 8, "no full beat");
    ensure!(
        last.last && 1 <= last.bytes && last.bytes <= 8,
        "no last beat"
    );
    ensure!(
        next.last && 1 <= next.bytes && next.bytes <= 8,
        "no last beat"
    );
    let clocks = [None, Some(full), None, Some(last), Some(next)];
    let frames = frames_of(alloc, &clocks)?;
    let count = frames.len();
    let mut said = format!(in alloc; "{count}")?;
    for frame in &frames {
        let digits = hex::encode(alloc, frame.bytes())?;
        write!(said, " {digits}")?;
    }
    Ok(said)
}
