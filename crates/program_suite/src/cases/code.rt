//! The program of a case.

use crate::cases::bytes::Named;
use crate::cases::numbers::number_32;
use anyhow::{Result, ensure};
use row_plan::cell_core::xdp_state::bpf_isa::{Insn, decode_all};
use row_plan::cell_core::xdp_state::xdp_maps::decl::MapDecl;
use std::alloc::{AllocError, Global};
use xdp_object::Program;

/// The code of a program, with a hole or without, and its references to maps.
#[derive(Drop)]
pub(crate) struct Code {
    alloc: Global,
    before: Vec<u8>,
    behind: Option<Vec<u8>>,
    refs: Vec<u32>,
}

impl Code {
    /// No program.
    pub(crate) fn new(alloc: Global) -> Code {
        Code {
            alloc,
            before: Vec::new(alloc),
            behind: None,
            refs: Vec::new(alloc),
        }
    }

    /// Does what a line says of the program, and whether it is such a line.
    pub(crate) fn take(&mut self, named: &Named, verb: &str, rest: &str) -> Result<bool> {
        match verb {
            "code" => self.add(&named.bytes(rest)?)?,
            "hole" => {
                ensure!(self.behind.is_none(), "one hole");
                self.behind = Some(Vec::new(self.alloc));
            }
            "refs" => {
                for place in rest.split_whitespace() {
                    self.refs.push(number_32(place)?)?;
                }
            }
            _ => return Ok(false),
        }
        Ok(true)
    }

    // Adds to the program, after its hole where it has one.
    fn add(&mut self, code: &[u8]) -> Result<(), AllocError> {
        match &mut self.behind {
            Some(behind) => behind.extend_from_slice(code),
            None => self.before.extend_from_slice(code),
        }
    }

    // The instructions, with these bytes in the hole.
    fn insns(&self, hole: &[u8]) -> Result<Vec<Insn>> {
        let mut code = Vec::from_slice(self.alloc, &self.before)?;
        code.extend_from_slice(hole)?;
        if let Some(behind) = &self.behind {
            code.extend_from_slice(behind)?;
        }
        Ok(decode_all(self.alloc, &code)?)
    }

    /// The program over these maps, with these bytes in its hole, if its parts make up one.
    pub(crate) fn program(&self, decls: &[MapDecl], hole: &[u8]) -> Result<Option<Program>> {
        let insns = self.insns(hole)?;
        let decls = copied(self.alloc, decls)?;
        let name = Vec::from_slice(self.alloc, b"case")?;
        let refs = Vec::from_slice(self.alloc, &self.refs)?;
        Ok(Program::new(name, insns, decls, refs))
    }
}

fn copied(alloc: Global, decls: &[MapDecl]) -> Result<Vec<MapDecl>, AllocError> {
    let mut all = Vec::new(alloc);
    for decl in decls {
        all.push(decl.copied())?;
    }
    Ok(all)
}
