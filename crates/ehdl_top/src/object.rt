// Objects, compiled or read alone.

ghost use Rattle.std.specs.Prelude.{◌≡◌, ◌≢◌, ◌⊎◌, ℕ, List, Option, OnOk, IfOk, IfErr};
ghost use Rattle.xdp_object.specs.Object.{IsObject};
ghost use Rattle.xdp_object.specs.xdp_machine.Program.{XdpProgram};
ghost use Rattle.xdp_object.specs.Choice.{chosen_of};
ghost use Rattle.ehdl_top.specs.Forms.{program_form, built, accepted, object_form};
ghost use Rattle.prepare_core.specs.Counted.{FailsCounting};
ghost use Rattle.kind_core.specs.declared.kind.Offsets.TheVariants.{Varying};
ghost use Rattle.ehdl_top.specs.Steps.{IsBuiltOf, IsAcceptedBy, AreCounts, IsGivenUp};

use crate::error::CommandError;
use crate::form::Form;
use crate::limits::OBJECT_LIMIT;
use ehdl_build::{Built, CompileError, compile};
use kind_core::Offsets;
use row_rules::node_rows::Stages;
use std::alloc::Global;
use xdp_object::{Choice, ObjectError, Program, read_object};
use xdp_state::BuildError;

/// An object of a program that is compiled. What is built of it is what is read.
#[derive(Clone, Copy)]
pub(crate) struct ProgramForm<'a> {
    pub(crate) choice: Choice<'a>,
}

impl Form for ProgramForm<'_> {
    type Value = Built;

    ghost form = { λ f. program_form (chosen_of f.choice) built };

    ghost Gives = { λ f bytes built. IsBuiltOf (chosen_of f.choice) bytes built };

    fn limit(&self) -> u64 {
        OBJECT_LIMIT
    }

    fn too_long(&self) -> CommandError {
        CommandError::Object(ObjectError::Long)
    }

    fn read(&self, alloc: Global, bytes: &[u8]) -> Result<Built, CommandError> {
        build(alloc, bytes, self.choice)
    }
}

/// What is counted of an accepted program.
#[derive(Clone, Copy)]
pub(crate) struct Counts {
    /// The nodes of its graph.
    pub(crate) nodes: u64,
    pub(crate) stages: Stages,
}

/// An accepted program.
#[derive(Drop)]
pub(crate) struct Accepted {
    pub(crate) program: Program,
    pub(crate) counts: Counts,
}

/// An object of an accepted program, which is what is read.
#[derive(Clone, Copy)]
pub(crate) struct AcceptedForm<'a> {
    pub(crate) choice: Choice<'a>,
}

impl Form for AcceptedForm<'_> {
    type Value = Accepted;

    ghost form = { λ f. program_form (chosen_of f.choice) accepted };

    ghost Gives = { λ f bytes accepted. IsAcceptedBy (chosen_of f.choice) bytes accepted };

    fn limit(&self) -> u64 {
        OBJECT_LIMIT
    }

    fn too_long(&self) -> CommandError {
        CommandError::Object(ObjectError::Long)
    }

    fn read(&self, alloc: Global, bytes: &[u8]) -> Result<Accepted, CommandError> {
        accepted_program(alloc, bytes, self.choice)
    }
}

/// An object, whose program is what is read, whatever it is.
#[derive(Clone, Copy)]
pub(crate) struct ObjectForm<'a> {
    pub(crate) choice: Choice<'a>,
}

impl Form for ObjectForm<'_> {
    type Value = Program;

    ghost form = { λ f. object_form (chosen_of f.choice) };

    ghost Gives = { λ f bytes program. IsObject (chosen_of f.choice) bytes program };

    fn limit(&self) -> u64 {
        OBJECT_LIMIT
    }

    fn too_long(&self) -> CommandError {
        CommandError::Object(ObjectError::Long)
    }

    fn read(&self, alloc: Global, bytes: &[u8]) -> Result<Program, CommandError> {
        read_alone(alloc, bytes, self.choice)
    }
}

// What is built of an object.
fn build(alloc: Global, object: &[u8], choice: Choice) -> Result<Built, CommandError>
    ensures text { IfOk result (IsBuiltOf (chosen_of choice.entry) object.now) }
    ensures given_up { IfErr result (IsGivenUp (program_form (chosen_of choice.entry) built) object.now) }
{
    match compile(alloc, object, choice) {
        Ok(built) => Ok(built),
        Err(CompileError::Object(fault)) => Err(CommandError::Object(fault)),
        Err(CompileError::Refused(refusal)) => Err(CommandError::Refused(refusal)),
        Err(CompileError::NoMemory) => Err(CommandError::NoMemory),
    }
}

// The accepted program of an object.
fn accepted_program(alloc: Global, object: &[u8], choice: Choice) -> Result<Accepted, CommandError>
    ensures program { IfOk result (IsAcceptedBy (chosen_of choice.entry) object.now) }
    ensures given_up { IfErr result (IsGivenUp (program_form (chosen_of choice.entry) accepted) object.now) }
{
    let program = match read_object(alloc, object, choice) {
        Ok(program) => program,
        Err(error) => return Err(error_of(error)),
    };
    match count(alloc, &program) {
        Ok(counts) => Ok(Accepted { program, counts }),
        Err(BuildError::Refused(refusal)) => Err(CommandError::Refused(refusal)),
        Err(BuildError::NoMemory) => Err(CommandError::NoMemory),
    }
}

// The nodes of a program's graph and its stages, where offsets into the packet may vary, or its first refusal.
fn count(alloc: Global, program: &Program) -> Result<Counts, BuildError>
    ensures counts { IfOk result (AreCounts program.now) }
    ensures refuses { IfErr result (FailsCounting Varying program.now) }
{
    let counted = prepare_core::count(alloc, program, Offsets::Varying)?;
    Ok(Counts {
        nodes: counted.graph.nodes.len() as u64,
        stages: counted.stages,
    })
}

// The program of an object.
fn read_alone(alloc: Global, object: &[u8], choice: Choice) -> Result<Program, CommandError>
    ensures program { IfOk result (IsObject (chosen_of choice.entry) object.now) }
    ensures given_up { IfErr result (IsGivenUp (object_form (chosen_of choice.entry)) object.now) }
{
    match read_object(alloc, object, choice) {
        Ok(program) => Ok(program),
        Err(error) => Err(error_of(error)),
    }
}

/// The same error, with want of memory apart.
pub(crate) fn error_of(error: ObjectError) -> CommandError
    ensures { ((error ≡ ObjectError.NoMemory) × (result ≡ CommandError.NoMemory)) ⊎ ((error ≢ ObjectError.NoMemory) × (result ≡ CommandError.Object error)) }
{
    match error {
        ObjectError::NoMemory => CommandError::NoMemory,
        fault => CommandError::Object(fault),
    }
}
