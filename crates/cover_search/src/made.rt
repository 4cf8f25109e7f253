// The program that is found.

ghost use Rattle.std.specs.Prelude.{◌≡◌, IfOk, IfSome};
ghost use Rattle.cover_search.specs.Made.{HasNamesOf};

use crate::laying::Laid;
use std::alloc::{AllocError, Global};
use xdp_machine::bpf_isa::Insn;
use xdp_machine::xdp_maps::decl::MapDecl;
use xdp_object::Program;

/// A program that was found for another one, and for each of its places one of that.
#[derive(Drop)]
pub struct Found {
    /// What was found: its name and its maps are those of the other one.
    pub program: Program,
    /// By its places.
    pub origin: Vec<u32>,
}

// Copies of these declarations.
fn copied_decls(alloc: Global, decls: &[MapDecl]) -> Result<Vec<MapDecl>, AllocError>
    ensures { IfOk result (λ copies. copies.items ≡ decls.now) }
{
    let mut copies = Vec::new(alloc);
    for decl in decls {
        copies.push(decl.copied())?;
    }
    Ok(copies)
}

// The program of these instructions and references, with the name and the maps of another one.
fn program_of(
    alloc: Global,
    a: &Program,
    insns: Vec<Insn>,
    refs: Vec<u32>,
) -> Result<Option<Program>, AllocError>
    ensures { IfOk result (λ made. IfSome made (λ b. HasNamesOf b a.now)) }
{
    let name = a.name().to_vec(alloc)?;
    let decls = copied_decls(alloc, a.decls())?;
    Ok(Program::new(name, insns, decls, refs))
}

/// What was laid out, as a program.
pub(crate) fn made(alloc: Global, a: &Program, laid: Laid) -> Result<Option<Found>, AllocError>
    ensures { IfOk result (λ found. IfSome found (λ f. HasNamesOf f.program a.now)) }
{
    let Laid {
        insns,
        refs,
        origin,
    } = laid;
    match program_of(alloc, a, insns, refs)? {
        Some(program) => Ok(Some(Found { program, origin })),
        None => Ok(None),
    }
}
