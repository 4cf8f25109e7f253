//! The program's call, made once for each call of the shelf or the sink that it makes, which then fails.

use crate::known::Known;
use crate::said::quoted;
use crate::words::words_of;
use anyhow::{Result, bail};
use command_line::Words;
use ehdl_top::top;
use shelf_core::{MemShelf, MemSink};
use std::alloc::Global;
use std::fmt::Write;

/// The calls of which one fails. One that writes leaves so many of its bytes all the same.
#[derive(Clone, Copy)]
enum Calls {
    Reads,
    Writes(u64),
    Puts(u64),
}

/// What a name holds after the program's call.
#[derive(Clone, Copy, Debug)]
enum Left {
    /// What it held before.
    Kept,
    /// What it holds where no call fails.
    Whole,
    /// So many bytes from the front of that.
    First(usize),
    Other,
}

// What a name holds, beside what it held before and what it holds where no call fails.
fn left_of(before: Option<&[u8]>, whole: Option<&[u8]>, held: Option<&[u8]>) -> Left {
    match (before, whole, held) {
        (None, _, None) => Left::Kept,
        (Some(before), _, Some(held)) if before == held => Left::Kept,
        (_, Some(whole), Some(held)) if whole == held => Left::Whole,
        (_, Some(whole), Some(held)) if whole.starts_with(held) => Left::First(held.len()),
        _ => Left::Other,
    }
}

// A shelf that holds of these names what another holds.
fn copied(alloc: Global, shelf: &MemShelf, names: &str) -> Result<MemShelf> {
    let mut copy = MemShelf::new(alloc);
    for name in names.split(',') {
        if let Some(bytes) = shelf.held(name) {
            copy.hold(name, bytes)?;
        }
    }
    Ok(copy)
}

// Calls the program with one of its calls failing, none where `call` is 0, and says how it ends, what the sink has taken, and how many
// reads and writes were made.
fn ended(
    alloc: Global,
    words: &Words,
    shelf: &mut MemShelf,
    calls: Calls,
    call: u64,
) -> Result<String> {
    let mut out = MemSink::new(alloc);
    match calls {
        Calls::Reads => shelf.fail_read(call)?,
        Calls::Writes(left) => shelf.fail_write(call, left)?,
        Calls::Puts(left) => out.fail_put(call, left)?,
    }
    let status = top(alloc, words, shelf, &mut out);
    let code = status.code();
    let taken = quoted(alloc, out.held())?;
    let (reads, writes) = (shelf.reads(), shelf.writes());
    Ok(format!(in alloc; "{status:?} {code} {taken} {reads} {writes}")?)
}

// Adds of each name what it holds.
fn push_left(
    said: &mut String,
    names: &str,
    before: &MemShelf,
    whole: &MemShelf,
    shelf: &MemShelf,
) -> Result<()> {
    for name in names.split(',') {
        let left = left_of(before.held(name), whole.held(name), shelf.held(name));
        write!(said, ", {name} {left:?}")?;
    }
    Ok(())
}

/// What a row asks for.
#[derive(Clone, Copy)]
struct Asked<'a> {
    calls: Calls,
    count: u64,
    names: &'a str,
    words: &'a [&'a str],
}

fn calls_of(kind: &str, left: &str) -> Result<Calls> {
    match kind {
        "read" => Ok(Calls::Reads),
        "write" => Ok(Calls::Writes(left.parse()?)),
        "put" => Ok(Calls::Puts(left.parse()?)),
        _ => bail!("no such calls"),
    }
}

// A row is `read COUNT NAMES top WORD..`, or `write` or `put` with the bytes that are left before the count.
fn asked_of<'a>(row: &'a [&'a str]) -> Result<Asked<'a>> {
    let (kind, left, count, names, words) = match row {
        ["read", count, names, "top", words @ ..] => ("read", "0", count, names, words),
        [kind, left, count, names, "top", words @ ..] => (*kind, *left, count, names, words),
        _ => bail!("no such row"),
    };
    let calls = calls_of(kind, left)?;
    let count = count.parse()?;
    Ok(Asked {
        calls,
        count,
        names,
        words,
    })
}

// Adds what comes of the program's call where its `call`-th call of the kind fails.
fn push_failing(
    said: &mut String,
    alloc: Global,
    asked: Asked<'_>,
    words: &Words,
    before: &MemShelf,
    whole: &MemShelf,
    call: u64,
) -> Result<()> {
    let mut shelf = copied(alloc, before, asked.names)?;
    let end = ended(alloc, words, &mut shelf, asked.calls, call)?;
    write!(said, "\n{call}: {end}")?;
    push_left(said, asked.names, before, whole, &shelf)
}

// Adds what comes of the program's call where each of its calls of the kind fails in turn.
fn push_each(
    said: &mut String,
    alloc: Global,
    asked: Asked<'_>,
    words: &Words,
    before: &MemShelf,
    whole: &MemShelf,
) -> Result<()> {
    for call in 1..=asked.count {
        push_failing(said, alloc, asked, words, before, whole, call)?;
    }
    Ok(())
}

/// Calls the program on what a shelf holds of some names, first as it is, and then with each of so many of its calls failing.
pub(crate) fn each(
    alloc: Global,
    before: &MemShelf,
    known: &Known,
    row: &[&str],
) -> Result<String> {
    let asked = asked_of(row)?;
    let words = words_of(alloc, known, asked.words)?;
    let mut whole = copied(alloc, before, asked.names)?;
    let mut said = ended(alloc, &words, &mut whole, asked.calls, 0)?;
    push_left(&mut said, asked.names, before, &whole, &whole)?;
    push_each(&mut said, alloc, asked, &words, before, &whole)?;
    Ok(said)
}
