// The command `prepare`.

ghost use Rattle.std.specs.Prelude.{◌≡◌, IfErr, IfOk, IsTrue};
ghost use Rattle.xdp_object.specs.xdp_machine.Program.{XdpProgram};
ghost use Rattle.xdp_object.specs.Choice.{chosen_of};
ghost use Rattle.xdp_object.specs.Object.{IsObject};
ghost use Rattle.command_line.specs.Request.{AskPrepare};
ghost use Rattle.capture_run.specs.States.{state_of};
ghost use Rattle.ehdl_top.specs.Forms.{object_form};
ghost use Rattle.ehdl_top.specs.Preparing.{ArePrepareLines, prepare_lines};
ghost use Rattle.ehdl_top.specs.Steps.{EndsIn, IsGivenUp, IsReplyTo};

use crate::codes::numbered;
use crate::error::CommandError;
use crate::form::{Form, read_input};
use crate::limits::OBJECT_LIMIT;
use crate::object::error_of;
use crate::report::counted_line;
use beat_core::Bytes;
use capture_run::put_file;
use command_line::Choice;
use prepare_core::{Counts, Prepared, prepare};
use shelf_core::Shelf;
use std::alloc::{AllocError, Global};
use xdp_object::{ObjectError, read_object};
use xdp_state::{BuildError, Refusal};

/// What is read of an object: the one that is given for it, or the first refusal of its program, for which it is declined.
#[derive(Drop)]
pub(crate) enum Reply {
    Given(Prepared),
    Declined(Refusal),
}

/// An object, for which another one may be given.
#[derive(Clone, Copy)]
pub(crate) struct ReplyForm<'a> {
    pub(crate) choice: Choice<'a>,
}

impl Form for ReplyForm<'_> {
    type Value = Reply;

    ghost form = { λ f. object_form (chosen_of f.choice) };

    ghost Gives = { λ f bytes reply. IsReplyTo (chosen_of f.choice) bytes reply };

    fn limit(&self) -> u64 {
        OBJECT_LIMIT
    }

    fn too_long(&self) -> CommandError {
        CommandError::Object(ObjectError::Long)
    }

    fn read(&self, alloc: Global, bytes: &[u8]) -> Result<Reply, CommandError> {
        read_reply(alloc, bytes, self.choice)
    }
}

// What is given for an object, or why it is declined.
fn read_reply(alloc: Global, object: &[u8], choice: Choice) -> Result<Reply, CommandError>
    ensures reply { IfOk result (IsReplyTo (chosen_of choice.entry) object.now) }
    ensures object { IfOk result (λ _. (program : XdpProgram) × IsObject (chosen_of choice.entry) object.now program) }
    ensures given_up { IfErr result (IsGivenUp (object_form (chosen_of choice.entry)) object.now) }
{
    let program = match read_object(alloc, object, choice) {
        Ok(program) => program,
        Err(error) => return Err(error_of(error)),
    };
    match prepare(alloc, &program, object, choice) {
        Ok(prepared) => Ok(Reply::Given(prepared)),
        Err(BuildError::Refused(refusal)) => Ok(Reply::Declined(refusal)),
        Err(BuildError::NoMemory) => Err(CommandError::NoMemory),
    }
}

// The lines of an object that was prepared.
fn prepare_lines(alloc: Global, counts: Counts) -> Result<Vec<Bytes>, AllocError>
    ensures { IfOk result (λ lines. lines.items ≡ prepare_lines counts.before counts.slots counts.stages) }
{
    let mut lines = Vec::new(alloc);
    let slots = numbered(alloc, b"slots ", counts.before, counts.slots)?;
    lines.push(Bytes::of(alloc, &slots)?)?;
    lines.push(counted_line(alloc, b"stages ", u64::from(counts.stages.rows))?)?;
    lines.push(counted_line(alloc, b"records ", u64::from(counts.stages.records))?)?;
    Ok(lines)
}

/// Writes an object that is accepted and does what another one does: that one itself where it is accepted. The lines say what is counted of both.
pub(crate) fn prepare_file<S: Shelf>(
    alloc: Global,
    shelf: &mut S,
    object: &str,
    output: &str,
    choice: Choice,
) -> Result<Vec<Bytes>, CommandError>
    ensures ends { EndsIn (AskPrepare object.now output.now (chosen_of choice.entry)) (state_of S.Shelf shelf.old) (state_of S.Shelf shelf.new) result }
    ensures lines { IfOk result (λ lines. IsTrue (S.tells shelf.old) → ArePrepareLines object.now output.now (chosen_of choice.entry) (S.held shelf.old) (S.held shelf.new) lines.items) }
{
    let prepared = match read_input(alloc, shelf, object, &ReplyForm { choice })? {
        Reply::Given(prepared) => prepared,
        Reply::Declined(refusal) => return Err(CommandError::Refused(refusal)),
    };
    let lines = prepare_lines(alloc, prepared.counts)?;
    put_file(shelf, output, &prepared.object)?;
    Ok(lines)
}
