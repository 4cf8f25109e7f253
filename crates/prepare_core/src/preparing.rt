// Preparing a program.

ghost use Rattle.std.specs.Prelude.{◌≡◌, ◌⊎◌, IfErr, IfOk, IfSome};
ghost use Rattle.xdp_machine.specs.bpf_isa.Text.{unit_count};
ghost use Rattle.xdp_machine.specs.Program.{IsProgram};
ghost use Rattle.xdp_object.specs.Choice.{chosen_of};
ghost use Rattle.xdp_object.specs.Object.{IsObject};
ghost use Rattle.prepare_core.specs.Counted.{IsCounted, FailsCounting};
ghost use Rattle.prepare_core.specs.Prepared.{Prepares, IsGivenFor};
ghost use Rattle.prepare_core.specs.Steps.{IsAcceptedCover, ArePrepared, IsItself};

use crate::counting::count;
use crate::writing::object_of_program;
use cover_core::covers;
use cover_search::find;
use kind_core::Offsets;
use row_rules::node_rows::Stages;
use std::alloc::{AllocError, Global};
use unfold_core::laws::runs_are_sound;
use unfold_core::places;
use xdp_object::{Choice, ObjectError, Program, read_object};
use xdp_state::{BuildError, Refusal};

/// What is counted of a program that was prepared: the units of the one that it was prepared from, its own units, and its stages.
#[derive(Clone, Copy, Debug)]
pub struct Counts {
    pub before: u64,
    pub slots: u64,
    pub stages: Stages,
}

/// An object that was prepared, and its counts.
#[derive(Debug, Drop)]
pub struct Prepared {
    pub object: Vec<u8>,
    pub counts: Counts,
}

// The units of a program.
fn slots(alloc: Global, program: &Program) -> Result<u64, AllocError>
    ensures slots { IfOk result (λ slots. slots ≡ unit_count program.now.insns) }
    // It is one, as its instructions say.
    ensures program { IsProgram program.now }
{
    let _insns = program.insns();
    Ok(places(alloc, program)?.len() as u64)
}

// The stages of a program that is accepted, if it covers another one by these origins.
fn cover_stages(
    alloc: Global,
    a: &Program,
    b: &Program,
    origin: &[u32],
) -> Result<Option<Stages>, AllocError>
    ensures { IfOk result (λ found. IfSome found (IsAcceptedCover a.now b.now)) }
{
    let counted = match count(alloc, b, Offsets::Fixed) {
        Ok(counted) => counted,
        Err(BuildError::Refused(_)) => return Ok(None),
        Err(BuildError::NoMemory) => return Err(AllocError),
    };
    if covers(alloc, a, b, &counted.graph, origin)? {
        Ok(Some(counted.stages))
    } else {
        Ok(None)
    }
}

// What is counted of the program of an object, if it is prepared from another one by these origins.
fn checked_counts(
    alloc: Global,
    a: &Program,
    object: &[u8],
    choice: Choice,
    origin: &[u32],
) -> Result<Option<Counts>, AllocError>
    ensures { IfOk result (λ found. IfSome found (ArePrepared (chosen_of choice.entry) a.now object.now)) }
{
    let b = match read_object(alloc, object, choice) {
        Ok(b) => b,
        Err(ObjectError::NoMemory) => return Err(AllocError),
        Err(_) => return Ok(None),
    };
    let Some(stages) = cover_stages(alloc, a, &b, origin)? else {
        return Ok(None);
    };
    let before = slots(alloc, a)?;
    let slots = slots(alloc, &b)?;
    Ok(Some(Counts {
        before,
        slots,
        stages,
    }))
}

// What is found for a refused program, if anything is.
fn found(alloc: Global, a: &Program, choice: Choice) -> Result<Option<Prepared>, AllocError>
    ensures { IfOk result (λ found. IfSome found (Prepares (chosen_of choice.entry) a.now)) }
{
    let Some(cover) = find(alloc, a)? else {
        return Ok(None);
    };
    let Some(object) = object_of_program(alloc, &cover.program)? else {
        return Ok(None);
    };
    let checked = checked_counts(alloc, a, &object, choice, &cover.origin)?;
    match checked {
        Some(counts) => Ok(Some(Prepared { object, counts })),
        None => Ok(None),
    }
}

// The object of an accepted program itself.
fn itself(alloc: Global, a: &Program, object: &[u8], stages: Stages) -> Result<Prepared, AllocError>
    ensures itself { IfOk result (IsItself a.now object.now stages) }
    ensures program { IsProgram a.now }
{
    let slots = slots(alloc, a)?;
    let object = Vec::from_slice(alloc, object)?;
    Ok(Prepared {
        object,
        counts: Counts {
            before: slots,
            slots,
            stages,
        },
    })
}

// What is found for a program with this first refusal, or else the refusal.
fn found_or(
    alloc: Global,
    a: &Program,
    choice: Choice,
    refusal: Refusal,
) -> Result<Prepared, BuildError>
    ensures found { IfOk result (Prepares (chosen_of choice.entry) a.now) }
    ensures refused { IfErr result (λ e. (e ≡ BuildError.Refused refusal) ⊎ (e ≡ BuildError.NoMemory)) }
{
    match found(alloc, a, choice) {
        Ok(Some(prepared)) => Ok(prepared),
        Ok(None) => Err(BuildError::Refused(refusal)),
        Err(_) => Err(BuildError::NoMemory),
    }
}

/// What is given for an object under the choice by which its program was taken: where the program is accepted, the object itself; where it is
/// refused, an object of a program that is accepted and does the same, if one is found, and else the first refusal. There may be one where
/// none is found.
pub fn prepare(
    alloc: Global,
    a: &Program,
    object: &[u8],
    choice: Choice,
) -> Result<Prepared, BuildError>
    requires { IsObject (chosen_of choice) object.now a.now }
    ensures given { IfOk result (IsGivenFor (chosen_of choice.entry) a.now object.now) }
    ensures fails { IfErr result (FailsCounting Offsets.Fixed a.now) }
{
    runs_are_sound();
    match count(alloc, a, Offsets::Fixed) {
        Ok(counted) => match itself(alloc, a, object, counted.stages) {
            Ok(prepared) => Ok(prepared),
            Err(_) => Err(BuildError::NoMemory),
        },
        Err(BuildError::Refused(refusal)) => found_or(alloc, a, choice, refusal),
        Err(BuildError::NoMemory) => Err(BuildError::NoMemory),
    }
}
