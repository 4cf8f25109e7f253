//! Bytes that do not stand in a line as they are.

use anyhow::{Context, Result, bail};

// The byte that is meant by what follows a backslash, and what stands after that.
fn byte_meant(after: &str) -> Result<(u8, &str)> {
    if let Some(digits) = after.strip_prefix('x') {
        let (digits, rest) = digits.split_at_checked(2).context("two digits")?;
        return Ok((u8::from_str_radix(digits, 16)?, rest));
    }
    if let Some(rest) = after.strip_prefix('n') {
        return Ok((b'\n', rest));
    }
    if let Some(rest) = after.strip_prefix('r') {
        return Ok((b'\r', rest));
    }
    match after.strip_prefix('t') {
        Some(rest) => Ok((b'\t', rest)),
        None => bail!("no such escape: {after:?}"),
    }
}

/// Adds the bytes of a text, in which `\n`, `\r`, `\t` and `\xHH` each stand for one byte.
pub(crate) fn push_meant(bytes: &mut Vec<u8>, text: &str) -> Result<()> {
    let mut pieces = text.split('\\');
    if let Some(front) = pieces.next() {
        bytes.extend_from_slice(front.as_bytes())?;
    }
    for piece in pieces {
        let (byte, rest) = byte_meant(piece)?;
        bytes.push(byte)?;
        bytes.extend_from_slice(rest.as_bytes())?;
    }
    Ok(())
}
