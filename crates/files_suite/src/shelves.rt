//! Calls of shelves.

use crate::known::Known;
use crate::said::{ended, quoted, truth};
use anyhow::{Result, bail};
use shelf_core::{Shelf, fetch_all};
use std::alloc::Global;

/// Makes a call of a shelf.
pub(crate) fn call<S: Shelf>(
    alloc: Global,
    shelf: &mut S,
    known: &Known,
    words: &[&str],
) -> Result<String> {
    match words {
        ["begin", name] => ended(alloc, shelf.begin(name)),
        ["append", name, bytes] => ended(alloc, shelf.append(name, known.get(bytes)?)),
        ["read", name, place, room] => read(alloc, shelf, name, place.parse()?, room.parse()?),
        ["fetch", name, limit, bytes] => {
            fetch(alloc, shelf, name, limit.parse()?, known.get(bytes)?)
        }
        _ => bail!("no such call"),
    }
}

// Reads from a place on into a buffer of so many bytes.
fn read<S: Shelf>(
    alloc: Global,
    shelf: &mut S,
    name: &str,
    place: u64,
    room: usize,
) -> Result<String> {
    let mut into = vec![in alloc; 0; room]?;
    match shelf.read_at(name, place, &mut into) {
        Ok(count) => quoted(alloc, &into[..count]),
        Err(failed) => ended(alloc, Err(failed)),
    }
}

// Fetches all that a name holds, and says whether it is what is wanted.
fn fetch<S: Shelf>(
    alloc: Global,
    shelf: &mut S,
    name: &str,
    limit: u64,
    wanted: &[u8],
) -> Result<String> {
    match fetch_all(alloc, shelf, name, limit) {
        Ok(bytes) => truth(alloc, bytes.as_slice() == wanted),
        Err(error) => Ok(format!(in alloc; "Err({error:?})")?),
    }
}
