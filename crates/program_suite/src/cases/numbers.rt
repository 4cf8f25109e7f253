//! Numbers and words of a line.

use anyhow::{Context, Result};

/// The first word of a line, and the others.
pub(crate) fn front(rest: &str) -> (&str, &str) {
    rest.split_once(' ').unwrap_or((rest, ""))
}

/// A number, decimal or hexadecimal after `0x`.
pub(crate) fn number(word: &str) -> Result<u64> {
    match word.strip_prefix("0x") {
        Some(digits) => u64::from_str_radix(digits, 16),
        None => word.parse::<u64>(),
    }
    .context(format_args!("the number {word:?}"))
}

/// A number of 32 bits.
pub(crate) fn number_32(word: &str) -> Result<u32> {
    u32::try_from(number(word)?).context(format_args!("the number {word:?}"))
}
