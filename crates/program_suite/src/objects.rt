//! Cases of objects and their programs.

use crate::units::push_insns;
use anyhow::Result;
use row_plan::cell_core::xdp_state::xdp_maps::decl::MapDecl;
use std::alloc::Global;
use std::fmt::Write;
use std::str;
use xdp_object::{Choice, Program, read_object, two_units};

/// The most keys of a hash.
const HASH_CAP: u32 = 256;

/// Adds the program of an object, by a function's name or `-`, or the code of its fault.
pub(crate) fn program(alloc: Global, bytes: &[u8], choice: &str, out: &mut String) -> Result<()> {
    let choice = Choice {
        program: match choice {
            "-" => None,
            name => Some(name),
        },
        hash_cap: HASH_CAP,
    };
    match read_object(alloc, bytes, choice) {
        Ok(program) => push_program(&program, out),
        Err(error) => Ok(out.push_str(str::from_utf8(&error.code(alloc)?)?)?),
    }
}

// Adds a program: its name, how many maps and references it has, the number that it is the least program of, its maps, the places of its
// references, and its instructions.
fn push_program(program: &Program, out: &mut String) -> Result<()> {
    let name = str::from_utf8(program.name())?;
    let (maps, refs) = (program.decls().len(), program.refs().len());
    let least = two_units(program);
    write!(
        out,
        "{name:?}, {maps} maps, {refs} references, least {least:?}"
    )?;
    for decl in program.decls() {
        push_decl(decl, out)?;
    }
    for place in program.refs() {
        write!(out, "\n| map at {place}")?;
    }
    Ok(push_insns(program.insns(), out)?)
}

// Adds the line of a map: its name, its kind, the sizes of its keys and values, and its capacity.
fn push_decl(decl: &MapDecl, out: &mut String) -> Result<()> {
    let name = str::from_utf8(decl.name.as_slice())?;
    let (kind, key, value, cap) = (decl.kind, decl.key, decl.value, decl.cap);
    Ok(write!(out, "\n| map {name:?} {kind:?} {key} {value} {cap}")?)
}
