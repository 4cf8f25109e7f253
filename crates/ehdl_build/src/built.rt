//! From the bytes of an object to the bytes of a Verilog text.

ghost use Rattle.std.specs.Prelude.{◌≡◌, ◌≢◌, ◌⊎◌, IfErr, IfOk, IsErrOf};
ghost use Rattle.xdp_object.specs.declared.error.ObjectError.{ObjectError};
ghost use Rattle.xdp_object.specs.Choice.{chosen_of};
ghost use Rattle.xdp_object.specs.Object.{FirstFault};
ghost use Rattle.xdp_state.specs.declared.refusal.Refusal.{Refusal};
ghost use Rattle.ehdl_build.specs.Compiled.{Compiles, FailsFor, IsRefused, compile_error};

use crate::counted::count;
use crate::pipelined::realize;
use hazard_core::cell_core::xdp_state::xdp_maps::decl::MapDecl;
use std::alloc::{AllocError, Global};
use xdp_object::{Choice, ObjectError, read_object};
use xdp_state::{BuildError, Refusal};

/// What an object was compiled to.
#[derive(Debug, Drop)]
pub struct Built {
    /// The Verilog text.
    pub text: Vec<u8>,
    /// The declarations of the program's maps, by their numbers.
    pub decls: Vec<MapDecl>,
    /// The last stage of the pipeline.
    pub rows: u16,
    /// How many sites of the program may write to a map.
    pub records: u16,
    /// How many nodes the graph of the program has.
    pub nodes: u16,
}

/// Why there is no text.
#[derive(Clone, Copy, Debug, PartialEq, Eq, thiserror::Error)]
pub enum CompileError {
    /// The bytes are no object of one program: its first fault, which is never want of memory.
    #[error("{0}")]
    Object(ObjectError),
    /// The program is refused: the first refusal.
    #[error("{0}")]
    Refused(Refusal),
    #[error("out of memory")]
    NoMemory,
}

impl From<AllocError> for CompileError {
    ghost use Rattle.std.specs.Prelude.{◌≡◌};
    ghost use Rattle.ehdl_build.specs.declared.built.CompileError.TheVariants.{NoMemory};

    ghost from_gives = { λ _ e. e ≡ NoMemory };

    fn from(_: AllocError) -> CompileError {
        CompileError::NoMemory
    }
}

// The same error, with want of memory apart.
fn error_of(error: ObjectError) -> CompileError
    ensures { ((error ≡ ObjectError.NoMemory) × (result ≡ CompileError.NoMemory))
        ⊎ ((error ≢ ObjectError.NoMemory) × (result ≡ CompileError.Object error)) }
{
    match error {
        ObjectError::NoMemory => CompileError::NoMemory,
        fault => CompileError::Object(fault),
    }
}

// The same error of a program.
fn refusal_of(error: BuildError) -> CompileError
    ensures { result ≡ compile_error error }
{
    match error {
        BuildError::Refused(refusal) => CompileError::Refused(refusal),
        BuildError::NoMemory => CompileError::NoMemory,
    }
}

// Copies of these declarations.
fn copies(alloc: Global, decls: &[MapDecl]) -> Result<Vec<MapDecl>, AllocError>
    ensures { IfOk result (λ copies. copies.items ≡ decls.now) }
{
    let mut copies = Vec::new(alloc);
    for decl in decls {
        copies.push(decl.copied())?;
    }
    Ok(copies)
}

/// Compiles an object. The text realizes the program: it spells a pipeline in which packets overlap, and which,
/// clock by clock and under every pattern of offered and taken beats, answers frames as sequential execution of the program
/// does on the maps that the host has loaded, in the stated clocks of a pipeline of the size that is answered beside it, and
/// then shows the host the maps that this leaves.
///
/// A program that is not accepted has its own first refusal.
pub fn compile(alloc: Global, bytes: &[u8], choice: Choice<'_>) -> Result<Built, CompileError>
    ensures ok { IfOk result (λ built. Compiles (chosen_of choice.entry) bytes.now built) }
    ensures error { IfErr result (FailsFor (chosen_of choice.entry) bytes.now) }

    // Want of memory aside, each error comes wherever it is said to.
    ensures object { (e : ObjectError) → FirstFault (chosen_of choice.entry) bytes.now e
        → IsErrOf result (CompileError.Object e) ⊎ IsErrOf result CompileError.NoMemory }
    ensures refused { (r : Refusal) → IsRefused (chosen_of choice.entry) bytes.now r
        → IsErrOf result (CompileError.Refused r) ⊎ IsErrOf result CompileError.NoMemory }
{
    let program = match read_object(alloc, bytes, choice) {
        Ok(program) => program,
        Err(error) => return Err(error_of(error)),
    };
    let counted = match count(alloc, &program) {
        Ok(counted) => counted,
        Err(error) => return Err(refusal_of(error)),
    };
    let decls = copies(alloc, program.decls())?;
    let text = realize(alloc, &program, &counted)?;
    Ok(Built {
        text,
        decls,
        rows: counted.stages.rows as u16,
        records: counted.stages.records as u16,
        nodes: counted.graph.nodes.len() as u16,
    })
}
