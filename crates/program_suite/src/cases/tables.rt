//! The maps of a case, and texts of them.

use crate::cases::numbers::{front, number_32};
use anyhow::{Context, Result, bail, ensure};
use maps_text::{MapsError, read_maps_text, write_maps_text};
use row_plan::cell_core::xdp_state::xdp_maps::decl::{MapDecl, MapKind};
use row_plan::cell_core::xdp_state::xdp_maps::short::ShortBytes;
use row_plan::cell_core::xdp_state::xdp_maps::state::Maps;
use std::alloc::Global;
use std::fmt::Write;
use std::str;

/// The maps of a case.
#[derive(Drop)]
pub(crate) struct Tables {
    alloc: Global,
    decls: Vec<MapDecl>,
    pub(crate) maps: Maps,
}

impl Tables {
    /// No maps.
    pub(crate) fn new(alloc: Global) -> Result<Tables> {
        Ok(Tables {
            alloc,
            decls: Vec::new(alloc),
            maps: Maps::new(alloc, &[])?,
        })
    }

    /// Adds a map, and empties the others.
    pub(crate) fn declare(&mut self, rest: &str) -> Result<()> {
        self.decls.push(decl_of(self.decls.len(), rest)?)?;
        let all = self.decls.iter().all(|d| d.is_within_limits());
        ensure!(all, "maps within the limits");
        self.maps = Maps::new(self.alloc, &self.decls)?;
        Ok(())
    }

    /// The maps hold what a text lists, and it is written again; or its first bad line.
    pub(crate) fn read(&mut self, rest: &str, out: &mut String) -> Result<()> {
        let text = text_of(self.alloc, rest)?;
        ensure!(self.decls.len() <= 16, "16 maps");
        let all = self.decls.iter().all(|d| d.is_within_limits());
        ensure!(all, "maps within the limits");
        match read_maps_text(self.alloc, &self.decls, &text) {
            Ok(maps) => self.maps = maps,
            Err(error) => return push_fault(out, error),
        }
        out.push_str("read")?;
        push_maps(self.alloc, &self.maps, out)
    }
}

/// Adds the lines of the text of maps.
pub(crate) fn push_maps(alloc: Global, maps: &Maps, out: &mut String) -> Result<()> {
    ensure!(maps.decls().len() <= 16, "16 maps");
    let text = write_maps_text(alloc, maps)?;
    for line in str::from_utf8(&text)?.lines() {
        write!(out, "\n| {line}")?;
    }
    Ok(())
}

// The declaration of a map of this number. Maps are named by letters, in the order of their numbers.
fn decl_of(number: usize, rest: &str) -> Result<MapDecl> {
    let (kind, rest) = front(rest);
    let kind = match kind {
        "hash" => MapKind::Hash,
        "array" => MapKind::Array,
        _ => bail!("no such kind of map"),
    };
    let (key, rest) = front(rest);
    let (value, cap) = front(rest);
    let letter = b"abcdefghijklmnop".get(number).context("16 maps")?;
    Ok(MapDecl {
        name: ShortBytes::of(&[*letter]),
        kind,
        key: number_32(key)?,
        value: number_32(value)?,
        cap: number_32(cap)?,
    })
}

// The bytes of a text of maps.
fn text_of(alloc: Global, rest: &str) -> Result<Vec<u8>> {
    let mut text = Vec::from_slice(alloc, rest.as_bytes())?;
    for byte in &mut text {
        match *byte {
            b'_' => *byte = b' ',
            b'/' => *byte = b'\n',
            b'^' => *byte = b'\r',
            _ => {}
        }
    }
    Ok(text)
}

// The code of a fault, and its line.
fn push_fault(out: &mut String, error: MapsError) -> Result<()> {
    let (code, n) = match error {
        MapsError::Line { n } => ("M1", n),
        MapsError::Unknown { n } => ("M2", n),
        MapsError::Length { n } => ("M3", n),
        MapsError::Twice { n } => ("M4", n),
        MapsError::Full { n } => ("M5", n),
        MapsError::NoMemory => bail!("out of memory"),
    };
    Ok(write!(out, "{code} {n}")?)
}
