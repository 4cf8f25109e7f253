// The capture of a command, which is read through before anything is written.

ghost use Rattle.std.specs.Prelude.{◌≡◌, [], IfOk, IfErr};
ghost use Rattle.capture_run.specs.States.{state_of, Changes};
ghost use Rattle.ehdl_top.specs.Forms.{capture_form};
ghost use Rattle.ehdl_top.specs.Steps.{IsSurvey, IsUnread};

use crate::error::CommandError;
use capture_run::{Records, Survey};
use shelf_core::Shelf;

/// Reads the capture that a name holds through.
pub(crate) fn survey_capture<S: Shelf>(
    shelf: &mut S,
    name: &str,
    records: &mut Records,
) -> Result<Survey, CommandError>
    ensures survey { IfOk result (IsSurvey name.now (state_of S.Shelf shelf.old)) }
    ensures unread { IfErr result (IsUnread capture_form name.now (state_of S.Shelf shelf.old) (state_of S.Shelf shelf.new)) }
    ensures kept { Changes [] (state_of S.Shelf shelf.old) (state_of S.Shelf shelf.new) }
{
    match records.survey(shelf, name) {
        Ok(survey) => Ok(survey),
        Err(error) => Err(CommandError::from(error)),
    }
}
