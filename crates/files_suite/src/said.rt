//! What is said of what a line gave.

use anyhow::Result;
use shelf_core::Failed;
use std::alloc::Global;
use std::fmt::Write;

/// A number.
pub(crate) fn number(alloc: Global, number: u64) -> Result<String> {
    Ok(format!(in alloc; "{number}")?)
}

/// The word for whether something holds.
pub(crate) fn yes_or_no(holds: bool) -> &'static str {
    if holds { "yes" } else { "no" }
}

/// Whether something holds.
pub(crate) fn truth(alloc: Global, holds: bool) -> Result<String> {
    Ok(String::from_str(alloc, yes_or_no(holds))?)
}

/// How a write ended.
pub(crate) fn ended(alloc: Global, end: Result<(), Failed>) -> Result<String> {
    Ok(format!(in alloc; "{end:?}")?)
}

/// Bytes as a text in quotes, with the escapes of `push_meant`.
pub(crate) fn quoted(alloc: Global, bytes: &[u8]) -> Result<String> {
    let mut text = String::from_str(alloc, "\"")?;
    for &byte in bytes {
        match byte {
            b'\n' => text.push_str("\\n")?,
            b'\r' => text.push_str("\\r")?,
            b'\t' => text.push_str("\\t")?,
            b'\\' | 0..=31 | 127.. => write!(text, "\\x{byte:02x}")?,
            _ => text.push(char::from(byte))?,
        }
    }
    text.push('"')?;
    Ok(text)
}
