//! A program.

ghost use Rattle.std.specs.Prelude.{◌≡◌, ◌↔◌, ◌<◌, ◌^◌, [], All, IfSome, IsTrue, is_some};
ghost use Rattle.bpf_isa.specs.Spelling.{IsInsn};
ghost use Rattle.bpf_isa.specs.Text.{unit_count};
ghost use Rattle.xdp_machine.specs.Program.{IsProgram};

use crate::parts::{
    are_ascending, are_declarations, are_legal, are_references, have_own_names, unit_count,
};
use bpf_isa::Insn;
use std::marker::Model;
use xdp_maps::decl::MapDecl;

/// The most maps of a program.
const MOST_MAPS: usize = 16;

/// A program: the bytes of its name, its instructions, its maps, and the places that refer to a map, ascending.
/// Contracts see it as an `XdpProgram`, and each is one by `IsProgram`.
#[derive(Debug, Drop)]
pub struct Program {
    name: Vec<u8>,
    insns: Vec<Insn>,
    decls: Vec<MapDecl>,
    refs: Vec<u32>,
}

impl Model for Program {
    ghost use Rattle.xdp_machine.specs.Program.{XdpProgram, IsProgram};

    ghost Value = { XdpProgram };

    ghost view = { λ p. record { name = p.name.items; insns = p.insns.items; decls = p.decls.items; refs = p.refs.items } };

    ghost invariant = { λ p. IsProgram (record { name = p.name.items; insns = p.insns.items; decls = p.decls.items; refs = p.refs.items }) };
}

impl Program {
    /// The program of these parts, where they make up one.
    pub fn new(
        name: Vec<u8>,
        insns: Vec<Insn>,
        decls: Vec<MapDecl>,
        refs: Vec<u32>,
    ) -> Option<Program>
        ensures program { IfSome result (λ p. p ≡ record { name = name.items; insns = insns.items; decls = decls.items; refs = refs.items }) }
        ensures exactly { IsTrue (is_some result) ↔ IsProgram (record { name = name.items; insns = insns.items; decls = decls.items; refs = refs.items }) }
    {
        let code = are_legal(&insns) && unit_count(&insns) < 1 << 32;
        let maps = decls.len() <= MOST_MAPS && are_declarations(&decls) && have_own_names(&decls);
        let references = are_references(&insns, decls.len(), &refs) && are_ascending(&refs);
        if code && maps && references {
            Some(Program {
                name,
                insns,
                decls,
                refs,
            })
        } else {
            None
        }
    }

    // The program of these parts, which make up one.
    pub(crate) fn of(
        name: Vec<u8>,
        insns: Vec<Insn>,
        decls: Vec<MapDecl>,
        refs: Vec<u32>,
    ) -> Program
        requires { IsProgram (record { name = name.items; insns = insns.items; decls = decls.items; refs = refs.items }) }
        ensures { result ≡ record { name = name.items; insns = insns.items; decls = decls.items; refs = refs.items } }
    {
        Program {
            name,
            insns,
            decls,
            refs,
        }
    }

    /// The bytes of its name.
    pub fn name(&self) -> &[u8]
        ensures { result.now ≡ self.now.name }
    {
        &self.name
    }

    /// Its instructions, in the order of their places.
    pub fn insns(&self) -> &[Insn]
        ensures insns { result.now ≡ self.now.insns }
        ensures program { IsProgram self.now }
    {
        &self.insns
    }

    /// The declarations of its maps, by their numbers.
    pub fn decls(&self) -> &[MapDecl]
        ensures decls { result.now ≡ self.now.decls }
        ensures program { IsProgram self.now }
    {
        &self.decls
    }

    /// The places that refer to a map, ascending.
    pub fn refs(&self) -> &[u32]
        ensures refs { result.now ≡ self.now.refs }
        ensures program { IsProgram self.now }
    {
        &self.refs
    }
}
