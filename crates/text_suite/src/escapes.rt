//! Bytes that do not stand in a row as they are: `\n` is a line feed, and `\x` and two digits are any byte.

use anyhow::{Context, Result};
use std::alloc::{AllocError, Global};
use std::fmt::Write;

// The byte that is meant by what stands after a backslash, and what follows it.
fn escape(part: &str) -> Result<(u8, &str)> {
    if let Some(rest) = part.strip_prefix('n') {
        return Ok((b'\n', rest));
    }
    let digits = part.strip_prefix('x').context("no such escape")?;
    let (digits, rest) = digits.split_at_checked(2).context("two digits")?;
    Ok((u8::from_str_radix(digits, 16)?, rest))
}

/// The bytes that a row spells.
pub(crate) fn unescaped(alloc: Global, row: &str) -> Result<Vec<u8>> {
    let (front, behind) = row.split_once('\\').unwrap_or((row, ""));
    let mut bytes = Vec::from_slice(alloc, front.as_bytes())?;
    if front.len() == row.len() {
        return Ok(bytes);
    }
    for part in behind.split('\\') {
        let (byte, rest) = escape(part)?;
        bytes.push(byte)?;
        bytes.extend_from_slice(rest.as_bytes())?;
    }
    Ok(bytes)
}

/// Adds the row that spells these bytes.
pub(crate) fn escaped(bytes: &[u8], row: &mut String) -> Result<(), AllocError> {
    for byte in bytes {
        match byte {
            b'\n' => row.push_str("\\n")?,
            b' '..=b'[' | b']'..=b'~' => row.push(char::from(*byte))?,
            _ => write!(row, "\\x{byte:02x}")?,
        }
    }
    Ok(())
}
