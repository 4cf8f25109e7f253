// The command `compile`.

ghost use Rattle.xdp_object.specs.Choice.{chosen_of};
ghost use Rattle.command_line.specs.Request.{AskCompile};
ghost use Rattle.capture_run.specs.States.{state_of};
ghost use Rattle.ehdl_top.specs.Steps.{EndsIn};

use crate::error::CommandError;
use crate::form::read_input;
use crate::object::ProgramForm;
use capture_run::put_file;
use command_line::Choice;
use shelf_core::Shelf;
use std::alloc::Global;

/// Compiles an object to a Verilog text.
pub(crate) fn compile_file<S: Shelf>(
    alloc: Global,
    shelf: &mut S,
    object: &str,
    verilog: &str,
    choice: Choice,
) -> Result<(), CommandError>
    ensures { EndsIn (AskCompile object.now verilog.now (chosen_of choice.entry)) (state_of S.Shelf shelf.old) (state_of S.Shelf shelf.new) result }
{
    let built = read_input(alloc, shelf, object, &ProgramForm { choice })?;
    put_file(shelf, verilog, &built.text)?;
    Ok(())
}
