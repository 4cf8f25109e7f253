// The command `ref`.

ghost use Rattle.std.specs.Prelude.{◌≡◌, [], List, length, IfOk, IsTrue};
ghost use Rattle.beat_core.specs.declared.frame.TheConstants.{FRAME_LIMIT};
ghost use Rattle.pcap_core.specs.Format.{Packet};
ghost use Rattle.unfold_core.specs.declared.unfolding.Unfolded.{Unfolded};
ghost use Rattle.unfold_core.specs.Unfolding.{IsUnfolded};
ghost use Rattle.xdp_object.specs.Choice.{chosen_of};
ghost use Rattle.xdp_object.specs.xdp_machine.Program.{XdpProgram, IsProgram, program_code};
ghost use Rattle.command_line.specs.Request.{AskRef, names_of};
ghost use Rattle.capture_run.specs.States.{state_of};
ghost use Rattle.capture_run.specs.Captures.{HoldsCapture};
ghost use Rattle.capture_run.specs.Runs.{RunsEnd, result_names};
ghost use Rattle.ehdl_top.specs.Steps.{AreDistinct, EndsIn, IsOver, NoOther, StreamsRuns, WritesRuns, written_names};

use crate::capture::survey_capture;
use crate::error::{CommandError, stopped};
use crate::form::read_input;
use crate::maps::read_maps;
use crate::object::AcceptedForm;
use beat_core::FRAME_LIMIT;
use capture_run::{Records, ResultRoom, Survey, begin_results, put_file, run_capture};
use command_line::{Choice, Files};
use maps_text::write_maps_text;
use shelf_core::Shelf;
use std::alloc::{AllocError, Global};
use xdp_maps::state::Maps;
use xdp_object::Program;
use xdp_seq::SeqPlan;

// Room for the longest frame.
fn frame_room(alloc: Global) -> Result<Vec<u8>, AllocError>
    ensures { IfOk result (λ room. length room.items ≡ FRAME_LIMIT) }
{
    vec![in alloc; 0; FRAME_LIMIT]
}

// Runs a program that is ready over a capture that was surveyed, and writes what it answers.
fn stream_runs<S: Shelf>(
    shelf: &mut S,
    files: &Files,
    survey: &Survey,
    records: &mut Records,
    room: &mut ResultRoom,
    plan: &mut SeqPlan,
    maps: &mut Maps,
    buffer: &mut [u8],
    ifindex: u32,
) -> Result<(), CommandError>
    requires apart { AreDistinct (names_of files.now) }
    requires ends { RunsEnd plan.old maps.old }
    requires buffer { length buffer.old ≡ FRAME_LIMIT }
    ensures told { IsTrue (S.tells shelf.old) → (program : XdpProgram) → plan.old ≡ program_code program → (packets : List Packet) → HoldsCapture survey.now.stream (S.held shelf.old files.now.capture.now) packets → survey.now.count ≡ length packets → StreamsRuns (names_of files.now) program maps.old maps.new ifindex survey.now.stream.magic packets result [] (state_of S.Shelf shelf.old) (state_of S.Shelf shelf.new) }
    ensures over { IsOver NoOther files.now.capture.now (result_names (names_of files.now)) result (state_of S.Shelf shelf.old) (state_of S.Shelf shelf.new) }
    ensures decls { maps.new.decls ≡ maps.old.decls }
{
    // The maps are in range.
    let _held = maps.decls();
    records.begin(shelf, files.capture)?;
    begin_results(shelf, files, survey.stream.magic())?;
    match run_capture(
        shelf, files, survey, records, room, plan, maps, buffer, ifindex,
    ) {
        Ok(()) => Ok(()),
        Err(error) => Err(stopped(error)),
    }
}

// Runs an accepted program over a capture that was surveyed, from these maps on, and writes what it answers and the maps in the end. What
// memory it needs it takes before it writes, but that for the text of the maps.
fn write_runs<S: Shelf>(
    alloc: Global,
    shelf: &mut S,
    files: &Files,
    survey: &Survey,
    records: &mut Records,
    program: &Program,
    maps: &mut Maps,
    ifindex: u32,
) -> Result<(), CommandError>
    requires apart { AreDistinct (names_of files.now) }
    requires program { IsProgram program.now }
    requires unfolded { (graph : Unfolded) × IsUnfolded program.now graph }
    requires decls { maps.old.decls ≡ program.now.decls }
    ensures told { IsTrue (S.tells shelf.old) → (packets : List Packet) → HoldsCapture survey.now.stream (S.held shelf.old files.now.capture.now) packets → survey.now.count ≡ length packets → WritesRuns (names_of files.now) program.now maps.old ifindex survey.now.stream.magic packets result [] (state_of S.Shelf shelf.old) (state_of S.Shelf shelf.new) }
    ensures over { IsOver NoOther files.now.capture.now (written_names (names_of files.now)) result (state_of S.Shelf shelf.old) (state_of S.Shelf shelf.new) }
{
    // A program has few maps, and each run of it that starts in range ends. The maps are in range.
    let _decls = program.decls();
    let _held = maps.decls();
    unfold_core::laws::runs_are_sound();
    let mut room = ResultRoom::new(alloc)?;
    let mut plan = SeqPlan::open(alloc, program)?;
    let mut buffer = frame_room(alloc)?;
    stream_runs(
        shelf,
        files,
        survey,
        records,
        &mut room,
        &mut plan,
        maps,
        &mut buffer,
        ifindex,
    )?;
    let text = write_maps_text(alloc, maps)?;
    put_file(shelf, files.final_maps, &text)?;
    Ok(())
}

/// Runs an object's program over a capture, one packet after another, from the maps of a text if one is named, and writes what it
/// answers and the maps that it leaves.
pub(crate) fn ref_files<S: Shelf>(
    alloc: Global,
    shelf: &mut S,
    files: &Files,
    choice: Choice,
    ifindex: u32,
) -> Result<(), CommandError>
    requires { AreDistinct (names_of files.now) }
    ensures { EndsIn (AskRef (names_of files.now) (chosen_of choice.entry) ifindex) (state_of S.Shelf shelf.old) (state_of S.Shelf shelf.new) result }
{
    let accepted = read_input(alloc, shelf, files.object, &AcceptedForm { choice })?;
    let program = &accepted.program;
    let mut maps = read_maps(alloc, shelf, files.maps, program.decls())?;
    let mut records = Records::open(alloc)?;
    let survey = survey_capture(shelf, files.capture, &mut records)?;
    write_runs(
        alloc,
        shelf,
        files,
        &survey,
        &mut records,
        program,
        &mut maps,
        ifindex,
    )
}
