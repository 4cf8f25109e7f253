// Writing a program as an object.

ghost use Rattle.std.specs.Prelude.{All};
ghost use Rattle.xdp_object.specs.bpf_isa.Spelling.{IsInsn};

use crate::sizes::{are_within, fits};
use bpf_isa::{Insn, encode_one};
use elf_view::{MapRecord, object_of};
use std::alloc::{AllocError, Global};
use std::str;
use xdp_maps::decl::{MapDecl, MapKind};
use xdp_object::Program;

/// The numbers of the kinds of maps (`linux/bpf.h`).
const HASH_TYPE: u32 = 1;

const ARRAY_TYPE: u32 = 2;

/// The bytes of a unit.
const UNIT_BYTES: usize = 8;

// The bytes of instructions, one after the other.
fn code_of(alloc: Global, insns: &[Insn]) -> Result<Vec<u8>, AllocError>
    requires { All IsInsn insns.now }
{
    let mut code = Vec::new(alloc);
    for insn in insns {
        let (bytes, units) = encode_one(insn);
        code.extend_from_slice(&bytes[..UNIT_BYTES * units as usize])?;
    }
    Ok(code)
}

// The record of a map. None where its name is no text.
fn record_of(decl: &MapDecl) -> Option<MapRecord<'_>> {
    let kind = match decl.kind {
        MapKind::Hash => HASH_TYPE,
        MapKind::Array => ARRAY_TYPE,
    };
    match str::from_utf8(decl.name.as_slice()) {
        Ok(name) => Some(MapRecord {
            name,
            words: [kind, decl.key, decl.value, decl.cap, 0],
        }),
        Err(_) => None,
    }
}

// The records of maps, without those whose names are no texts.
fn records_of(alloc: Global, decls: &[MapDecl]) -> Result<Vec<MapRecord<'_>>, AllocError> {
    let mut records = Vec::new(alloc);
    for decl in decls {
        if let Some(record) = record_of(decl) {
            records.push(record)?;
        }
    }
    Ok(records)
}

// The number in the instruction at a place.
fn number_at(insns: &[Insn], place: u32) -> u32 {
    let mut at = 0u32;
    for insn in insns {
        if at == place {
            return u32::try_from(insn.imm).unwrap_or(u32::MAX);
        }
        at = at.saturating_add(u32::from(insn.op.units()));
    }
    u32::MAX
}

// The references of a program, each with its map.
fn references_of(alloc: Global, program: &Program) -> Result<Vec<(u32, u32)>, AllocError> {
    let mut references = Vec::new(alloc);
    for place in program.refs() {
        references.push((*place, number_at(program.insns(), *place)))?;
    }
    Ok(references)
}

/// The object that is written of a program. None where a name is no text, or it is too long.
pub(crate) fn object_of_program(
    alloc: Global,
    program: &Program,
) -> Result<Option<Vec<u8>>, AllocError> {
    let Ok(name) = str::from_utf8(program.name()) else {
        return Ok(None);
    };
    let code = code_of(alloc, program.insns())?;
    let maps = records_of(alloc, program.decls())?;
    let refs = references_of(alloc, program)?;
    if are_within(&refs, &maps) && fits(name, &code, &maps, &refs) {
        Ok(Some(object_of(alloc, name, &code, &maps, &refs)?))
    } else {
        Ok(None)
    }
}
