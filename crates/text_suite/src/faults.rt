//! What is said of a text: that it is a design, or its first error.

use crate::escapes::escaped;
use anyhow::{Result, bail};
use std::alloc::{AllocError, Global};
use verilog_read::{ReadError, read_text};

/// A design, an error at a place, or a port that is at fault.
#[derive(Clone, Copy)]
enum Said {
    Design,
    At(&'static str, usize),
    Port(u32),
}

fn said_of(alloc: Global, text: &[u8]) -> Result<Said> {
    Ok(match read_text(alloc, text) {
        Ok(_design) => Said::Design,
        Err(ReadError::Lex { at }) => Said::At("V1", at),
        Err(ReadError::Syntax { at }) => Said::At("V2", at),
        Err(ReadError::Unknown { at }) => Said::At("V3", at),
        Err(ReadError::Twice { at }) => Said::At("V4", at),
        Err(ReadError::Width { at }) => Said::At("V5", at),
        Err(ReadError::Order { at }) => Said::At("V6", at),
        Err(ReadError::Ports { port }) => Said::Port(port),
        Err(ReadError::NoMemory) => bail!("no memory"),
    })
}

// The line and the column of a place, from 1.
fn line_and_column(text: &[u8], at: usize) -> (u64, u64) {
    let (mut line, mut column) = (1u64, 1u64);
    for byte in text.iter().take(at) {
        if *byte == b'\n' {
            line = line.saturating_add(1);
            column = 1;
        } else {
            column = column.saturating_add(1);
        }
    }
    (line, column)
}

// The row that spells these bytes, with a `#` at a place, if there is one.
fn row_of(alloc: Global, bytes: &[u8], mark: Option<usize>) -> Result<String, AllocError> {
    let mut row = String::new(alloc);
    match mark {
        Some(at) if at <= bytes.len() => {
            escaped(&bytes[..at], &mut row)?;
            row.push('#')?;
            escaped(&bytes[at..], &mut row)?;
        }
        _ => escaped(bytes, &mut row)?,
    }
    Ok(row)
}

/// Prints what is said of a text, which has `part` from `start` on. A `#` in the part shows where the error is. An error
/// elsewhere has its line and its column.
pub(crate) fn show_part(
    rt: &impl Print,
    alloc: Global,
    text: &[u8],
    start: usize,
    lead: &str,
    part: &[u8],
) -> Result<()> {
    let said = said_of(alloc, text)?;
    let mark = match said {
        Said::At(_, at) => at.checked_sub(start).filter(|m| *m <= part.len()),
        _ => None,
    };
    let row = row_of(alloc, part, mark)?;
    match said {
        Said::Design => println!(rt; "design {lead}{row}")?,
        Said::Port(port) => println!(rt; "V7:{port} {lead}{row}")?,
        Said::At(code, _) if mark.is_some() => println!(rt; "{code} {lead}{row}")?,
        Said::At(code, at) => {
            let (line, column) = line_and_column(text, at);
            println!(rt; "{code}:{line}:{column} {lead}{row}")?;
        }
    }
    Ok(())
}
