// The call that does all that the program does.

ghost use Rattle.std.specs.Prelude.{◌≡◌, ◌≢◌, ◌⊎◌, ◌↔◌, ℕ, List, [], IfOk, IfErr, IsErrOf, IsTrue, OnOk, OnErr};
ghost use Rattle.shelf_core.specs.Shelf.{SameHeld};
ghost use Rattle.command_line.specs.Request.{Request, request_of};
ghost use Rattle.command_line.specs.AsksFor.{AsksFor};
ghost use Rattle.capture_run.specs.States.{state_of, sink_of, Changes, IsLater, IsLaterSink, OneRose};
ghost use Rattle.ehdl_top.specs.Inputs.{AreReady, FirstStop, OneUnread, names_in};
ghost use Rattle.capture_run.specs.Writes.{Outputs};
ghost use Rattle.ehdl_top.specs.Status.{status_of};
ghost use Rattle.ehdl_top.specs.Requests.{inputs_of, outputs_of, IsOutcome, PutsLines, AreLines, OneUnwritten, IsCause, HasDeclined, CanEnd, IsFault};
ghost use Rattle.ehdl_top.specs.Ends.{AllWritten, ByInputs, EndsAs, IsEarly, Loses, SaysWhy, AreLinesOf, ArePut, AreCutOff, SaysLast};
ghost use Rattle.ehdl_top.specs.Steps.{EndsIn, AreOneEnd, NamesApart, IsFinished, IsFixed};
ghost use Rattle.ehdl_top.specs.declared.error.CommandError.{CommandError};

use crate::compile::compile_file;
use crate::demo::run_demo;
use crate::error::CommandError;
use crate::prepare::prepare_file;
use crate::reference::ref_files;
use crate::report::report_object;
use crate::run::run_files;
use crate::sim::sim_files;
use crate::status::Status;
use beat_core::Bytes;
use command_line::{Command, Words, WordsError, read_words};
use maps_text::has_one_meaning;
use shelf_core::{Failed, Shelf, Sink};
use std::alloc::Global;

// The end of a command that puts no lines where all is done.
fn without_lines(alloc: Global, end: Result<(), CommandError>) -> Result<Vec<Bytes>, CommandError>
    ensures same { AreOneEnd end result }
    ensures none { IfOk result (λ lines. lines.items ≡ []) }
{
    match end {
        Ok(()) => Ok(Vec::new(alloc)),
        Err(error) => Err(error),
    }
}

// Does what is asked for, and gives the lines that are to be put where all is done.
fn run_command<S: Shelf>(
    alloc: Global,
    shelf: &mut S,
    command: &Command,
) -> Result<Vec<Bytes>, CommandError>
    requires { NamesApart (request_of command.now) }
    ensures ends { EndsIn (request_of command.now) (state_of S.Shelf shelf.old) (state_of S.Shelf shelf.new) result }
    ensures lines { IfOk result (λ lines. AreLines (request_of command.now) (state_of S.Shelf shelf.old) (state_of S.Shelf shelf.new) lines.items) }
{
    match command {
        Command::Compile {
            object,
            verilog,
            choice,
        } => without_lines(alloc, compile_file(alloc, shelf, object, verilog, *choice)),
        Command::Run {
            files,
            verilog,
            choice,
            ifindex,
        } => without_lines(
            alloc,
            run_files(alloc, shelf, files, verilog, *choice, *ifindex),
        ),
        Command::Sim {
            files,
            verilog,
            choice,
            ifindex,
            clocks,
            events,
        } => without_lines(
            alloc,
            sim_files(
                alloc, shelf, files, verilog, *choice, *ifindex, *clocks, *events,
            ),
        ),
        Command::Ref {
            files,
            choice,
            ifindex,
        } => without_lines(alloc, ref_files(alloc, shelf, files, *choice, *ifindex)),
        Command::Report { object, choice } => report_object(alloc, shelf, object, *choice),
        Command::Prepare {
            object,
            output,
            choice,
        } => prepare_file(alloc, shelf, object, output, *choice),
        Command::Demo { seed, packets } => run_demo(alloc, *seed, *packets),
    }
}

// Does what the words ask for, and gives the lines that are to be put where all is done.
fn run_words<S: Shelf>(
    alloc: Global,
    words: &Words,
    shelf: &mut S,
) -> Result<Vec<Bytes>, CommandError>
    ensures ends { (request : Request) → AsksFor words.now request → EndsIn request (state_of S.Shelf shelf.old) (state_of S.Shelf shelf.new) result }
    ensures lines { IfOk result (λ lines. AreLinesOf words.now (state_of S.Shelf shelf.old) (state_of S.Shelf shelf.new) lines.items) }
    ensures usage { IsErrOf result CommandError.Usage → (request : Request) → ¬ AsksFor words.now request }
    ensures unread { ((request : Request) → ¬ AsksFor words.now request) → IsErrOf result CommandError.Usage ⊎ IsErrOf result CommandError.NoMemory }
    ensures untouched { IsErrOf result CommandError.Usage → shelf.new ≡ shelf.old }
    ensures unasked { ((request : Request) → ¬ AsksFor words.now request) → shelf.new ≡ shelf.old }
    ensures early { IfErr result (λ e. IsEarly (status_of e) → SameHeld (S.held shelf.old) (S.held shelf.new)) }
    ensures later { IsLater (state_of S.Shelf shelf.old) (state_of S.Shelf shelf.new) }
{
    match read_words(alloc, words) {
        Ok(command) => run_command(alloc, shelf, &command),
        Err(WordsError::Usage) => Err(CommandError::Usage),
        Err(WordsError::NoMemory) => Err(CommandError::NoMemory),
    }
}

// Puts lines, one after the other, up to the first put that fails.
fn put_lines<O: Sink>(lines: &[Bytes], out: &mut O) -> Result<(), Failed>
    ensures put { OnOk result (ArePut lines.now (sink_of O.Sink out.old) (sink_of O.Sink out.new)) }
    ensures cut { OnErr result (AreCutOff lines.now (sink_of O.Sink out.old) (sink_of O.Sink out.new)) }
    ensures none { lines.now ≡ [] → out.new ≡ out.old }
    ensures later { IsLaterSink (sink_of O.Sink out.old) (sink_of O.Sink out.new) }
{
    for line in lines {
        out.put(line.bytes())?;
    }
    Ok(())
}

// Puts the line that says why a command stops, and gives the status: where there is no memory for the line, this is why.
fn say_why<O: Sink>(alloc: Global, error: &CommandError, out: &mut O) -> Status
    ensures why { SaysWhy error.now result (sink_of O.Sink out.old) (sink_of O.Sink out.new) ⊎ SaysWhy CommandError.NoMemory result (sink_of O.Sink out.old) (sink_of O.Sink out.new) }
    ensures fixed { IsFixed error.now → result ≡ status_of error.now }
    ensures later { IsLaterSink (sink_of O.Sink out.old) (sink_of O.Sink out.new) }
{
    match error.line(alloc) {
        Ok(line) => {
            // Where the line can't be put, the status still says why.
            let _put = out.put(line.as_bytes());
            error.status()
        }
        Err(_) => {
            let _put = out.put(b"no memory\n");
            Status::NoMemory
        }
    }
}

// Puts the lines of a command that is done, and else the line that says why.
fn finish<O: Sink>(alloc: Global, end: Result<Vec<Bytes>, CommandError>, out: &mut O) -> Status
    ensures finished { IsFinished end result (sink_of O.Sink out.old) (sink_of O.Sink out.new) }
    ensures silent { IfOk end (λ lines. lines.items ≡ [] → out.new ≡ out.old) }
    ensures later { IsLaterSink (sink_of O.Sink out.old) (sink_of O.Sink out.new) }
{
    match end {
        Ok(lines) => match put_lines(&lines, out) {
            Ok(()) => Status::Done,
            Err(Failed) => say_why(alloc, &CommandError::WriteFault, out),
        },
        Err(error) => say_why(alloc, &error, out),
    }
}

/// All that the program does, on the words that it is called with. `compile` compiles an object to a Verilog text. `run` writes
/// the same text, simulates its bytes clock by clock over a capture, and writes what its ports gave. `sim` simulates a Verilog
/// text that is there, in at most so many clocks of the drive. `ref` runs the object's program over a capture, one instruction after
/// another. These three start from the maps of a text, if one is named. `report` puts to the sink, line by line, what is counted of the
/// object's program. `prepare` writes an object whose program is accepted and has the runs of the object's program, and puts what is counted
/// of both, or declines it. `demo` does the same of a run of the program of `flow_demo` over packets that are drawn from a seed, and touches no
/// file. Of every way to end but [`Status::Done`] one line says why, put to the sink.
pub fn top<S: Shelf, O: Sink>(alloc: Global, words: &Words, shelf: &mut S, out: &mut O) -> Status
    // What is written: a text that realizes the object's program, and what sequential execution on the capture gives; of a text
    // that is given, what the load, its full drive and the dump give. It is written in the command's order.
    ensures outcome { AllWritten result → IsTrue (S.tells shelf.old) → (request : Request) → AsksFor words.now request → EndsAs request result (state_of S.Shelf shelf.old) (state_of S.Shelf shelf.new) }
    // Where the inputs are there in their forms and no fault comes, all is written, want of memory and an object that is declined aside.
    ensures complete { (request : Request) → AsksFor words.now request → IsTrue (S.tells shelf.old) → AreReady (inputs_of request (S.held shelf.old)) (S.held shelf.old) → ¬ OneRose (names_in (inputs_of request (S.held shelf.old))) (S.read_faults shelf.old) (S.read_faults shelf.new) → ¬ OneUnwritten request (state_of S.Shelf shelf.old) (state_of S.Shelf shelf.new) (sink_of O.Sink out.old) (sink_of O.Sink out.new) → AllWritten result ⊎ ((result ≡ Status.NoMemory) ⊎ HasDeclined request (S.held shelf.old) result) }

    // The causes: exactly where the words ask for nothing, want of memory aside, and then the shelf is as it was, whatever is answered;
    ensures usage { result ≡ Status.Usage → (request : Request) → ¬ AsksFor words.now request }
    ensures unread { ((request : Request) → ¬ AsksFor words.now request) → (result ≡ Status.Usage) ⊎ (result ≡ Status.NoMemory) }
    ensures untouched { result ≡ Status.Usage → shelf.new ≡ shelf.old }
    ensures unasked { ((request : Request) → ¬ AsksFor words.now request) → shelf.new ≡ shelf.old }
    // exactly where an input is not in its form and those before it are, want of memory aside, and a fault of a read up to it;
    ensures inputs { (request : Request) → AsksFor words.now request → IsTrue (S.tells shelf.old) → (e : CommandError) → FirstStop (inputs_of request (S.held shelf.old)) (S.held shelf.old) e → (result ≡ status_of e) ⊎ ((result ≡ Status.ReadFault) ⊎ (result ≡ Status.NoMemory)) }
    // exactly where a simulation is given up, faults and want of memory aside.
    ensures driven { (request : Request) → AsksFor words.now request → IsTrue (S.tells shelf.old) → (e : CommandError) (outputs : Outputs) → IsOutcome request (S.held shelf.old) (Some e) outputs → (result ≡ status_of e) ⊎ IsFault result }
    // A fault of a read: the count of this input rose, and those before it are in their forms. A fault of a write, or of a put of lines.
    ensures read_fault { result ≡ Status.ReadFault → (request : Request) → AsksFor words.now request → OneUnread (inputs_of request (S.held shelf.old)) (state_of S.Shelf shelf.old) (state_of S.Shelf shelf.new) }
    ensures write_fault { result ≡ Status.WriteFault → (request : Request) → AsksFor words.now request → OneUnwritten request (state_of S.Shelf shelf.old) (state_of S.Shelf shelf.new) (sink_of O.Sink out.old) (sink_of O.Sink out.new) }
    ensures never { (request : Request) → AsksFor words.now request → CanEnd request (S.held shelf.old) result }

    // What is lost: nothing where no output was begun. Where a write fails, those before it were done, and none after it was begun.
    ensures early { IsEarly result → SameHeld (S.held shelf.old) (S.held shelf.new) }
    ensures broken { IsTrue (S.tells shelf.old) → (request : Request) → AsksFor words.now request → Loses result request (state_of S.Shelf shelf.old) (state_of S.Shelf shelf.new) }
    ensures others { (request : Request) → AsksFor words.now request → Changes (outputs_of request) (state_of S.Shelf shelf.old) (state_of S.Shelf shelf.new) }
    ensures later { IsLater (state_of S.Shelf shelf.old) (state_of S.Shelf shelf.new) }

    // Where all was done the sink has taken the command's lines and no more, of most commands none.
    ensures put { result ≡ Status.Done → (lines : List (List ℕ)) × AreLinesOf words.now (state_of S.Shelf shelf.old) (state_of S.Shelf shelf.new) lines × ArePut lines (sink_of O.Sink out.old) (sink_of O.Sink out.new) }
    ensures silent { result ≡ Status.Done → (request : Request) → AsksFor words.now request → ¬ PutsLines request → out.new ≡ out.old }
    // Else a line says why, once, whatever becomes of it: where the inputs are why, it says how.
    ensures why { result ≢ Status.Done → (e : CommandError) × SaysLast words.now (state_of S.Shelf shelf.old) (state_of S.Shelf shelf.new) e result (sink_of O.Sink out.old) (sink_of O.Sink out.new) × (ByInputs result → IsTrue (S.tells shelf.old) → (request : Request) → AsksFor words.now request → IsCause request (S.held shelf.old) e) }
    ensures sink { IsLaterSink (sink_of O.Sink out.old) (sink_of O.Sink out.new) }
{
    // One text of maps says what a simulation starts from.
    has_one_meaning();
    let end = run_words(alloc, words, shelf);
    finish(alloc, end, out)
}
