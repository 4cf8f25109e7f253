// The command `run`.

ghost use Rattle.std.specs.Prelude.{◌≡◌, ◌≤◌, List, length, OnOk, IsTrue};
ghost use Rattle.beat_core.specs.declared.frame.TheConstants.{BEAT_LIMIT};
ghost use Rattle.pcap_core.specs.Format.{Packet};
ghost use Rattle.port_drive.specs.Driving.{undriven};
ghost use Rattle.port_drive.specs.realization.Bounds.{clock_bound};
ghost use Rattle.xdp_maps.specs.State.{MapState};
ghost use Rattle.xdp_object.specs.xdp_machine.Program.{XdpProgram};
ghost use Rattle.xdp_object.specs.Choice.{chosen_of};
ghost use Rattle.command_line.specs.Request.{AskRun, names_of};
ghost use Rattle.capture_run.specs.States.{state_of};
ghost use Rattle.capture_run.specs.Writes.{file_writes};
ghost use Rattle.capture_run.specs.Captures.{HoldsCapture};
ghost use Rattle.ehdl_top.specs.Requests.{outputs_of};
ghost use Rattle.ehdl_top.specs.Steps.{AreDistinct, IsTextApart, EndsIn, IsOver, NoOther, IsRealized, IsPipelineFor, IsDriven, StreamsDrive, WritesRuns, streamed_names, run_names};

use crate::capture::survey_capture;
use crate::error::{CommandError, stopped};
use crate::form::read_input;
use crate::maps::read_maps;
use crate::object::ProgramForm;
use crate::pipeline::{open_pipeline, shown_maps};
use beat_core::BEAT_LIMIT;
use capture_run::{Records, ResultRoom, Survey, begin_results, drive_capture, put_file};
use clock_sim::Sim;
use command_line::{Choice, Files};
use ehdl_build::Built;
use maps_text::write_maps_text;
use port_drive::Driver;
use shelf_core::Shelf;
use std::alloc::Global;
use xdp_maps::state::Maps;

// The clocks that so many packets may take, whatever their lengths.
fn clock_limit(count: u32, rows: u16, records: u16) -> u64
    ensures { result ≡ clock_bound count rows BEAT_LIMIT records }
{
    u64::from(count) * (u64::from(rows) + 2 * BEAT_LIMIT as u64 + u64::from(records) + 8)
}

// Writes a text, simulates the pipeline of it over a capture that was surveyed, and writes what its ports give as it comes.
fn stream_run<S: Shelf>(
    shelf: &mut S,
    files: &Files,
    verilog: &str,
    text: &[u8],
    survey: &Survey,
    ahead: &mut Records,
    behind: &mut Records,
    room: &mut ResultRoom,
    driver: &mut Driver,
    sim: &mut Sim,
) -> Result<(), CommandError>
    requires apart { AreDistinct (names_of files.now) }
    requires text { IsTextApart (names_of files.now) verilog.now }
    requires undriven { driver.old ≡ undriven driver.old.ifindex driver.old.limit }
    requires pipeline { (program : XdpProgram) × (first : MapState) × IsPipelineFor program first sim.old.netlist sim.old.stored driver.old.ifindex driver.old.limit survey.now.count }
    ensures netlist { sim.new.netlist ≡ sim.old.netlist }
    ensures driven { OnOk result (IsDriven sim.old.netlist driver.old.ifindex driver.old.limit survey.now.count sim.old.stored sim.new.stored) }
    ensures told { IsTrue (S.tells shelf.old) → (packets : List Packet) → HoldsCapture survey.now.stream (S.held shelf.old files.now.capture.now) packets → survey.now.count ≡ length packets → StreamsDrive (names_of files.now) sim.old.netlist sim.old.stored sim.new.stored driver.old.ifindex driver.old.limit survey.now.stream.magic packets result (file_writes verilog.now text.now) (state_of S.Shelf shelf.old) (state_of S.Shelf shelf.new) }
    ensures over { IsOver NoOther files.now.capture.now (streamed_names (names_of files.now) verilog.now) result (state_of S.Shelf shelf.old) (state_of S.Shelf shelf.new) }
{
    ahead.begin(shelf, files.capture)?;
    behind.begin(shelf, files.capture)?;
    put_file(shelf, verilog, text)?;
    begin_results(shelf, files, survey.stream.magic())?;
    match drive_capture(shelf, files, survey, ahead, behind, room, driver, sim) {
        Ok(()) => Ok(()),
        Err(error) => Err(stopped(error)),
    }
}

// Simulates the text that was built of a program over a capture that was surveyed, from these maps on, and writes the text, what its ports
// give, and the maps that it shows in the end. What memory it needs it takes before it writes, but that for the maps in the end.
fn write_run<S: Shelf>(
    alloc: Global,
    shelf: &mut S,
    files: &Files,
    verilog: &str,
    built: &Built,
    first: &Maps,
    survey: &Survey,
    ahead: &mut Records,
    ifindex: u32,
) -> Result<(), CommandError>
    requires apart { AreDistinct (names_of files.now) }
    requires text { IsTextApart (names_of files.now) verilog.now }
    requires realized { (program : XdpProgram) × IsRealized built.now program }
    requires decls { first.now.decls ≡ built.now.decls.items }
    ensures told { IsTrue (S.tells shelf.old) → (program : XdpProgram) → IsRealized built.now program → (packets : List Packet) → HoldsCapture survey.now.stream (S.held shelf.old files.now.capture.now) packets → survey.now.count ≡ length packets → WritesRuns (names_of files.now) program first.now ifindex survey.now.stream.magic packets result (file_writes verilog.now built.now.text.items) (state_of S.Shelf shelf.old) (state_of S.Shelf shelf.new) }
    ensures over { IsOver NoOther files.now.capture.now (run_names (names_of files.now) verilog.now) result (state_of S.Shelf shelf.old) (state_of S.Shelf shelf.new) }
{
    let decls = first.decls();
    let limit = clock_limit(survey.count, built.rows, built.records);
    let mut behind = Records::open(alloc)?;
    let mut room = ResultRoom::new(alloc)?;
    let mut driver = Driver::open(alloc, ifindex, limit)?;
    let mut sim = open_pipeline(alloc, built, first)?;
    stream_run(
        shelf,
        files,
        verilog,
        &built.text,
        survey,
        ahead,
        &mut behind,
        &mut room,
        &mut driver,
        &mut sim,
    )?;
    let maps = shown_maps(alloc, &mut sim, decls)?;
    let text = write_maps_text(alloc, &maps)?;
    put_file(shelf, files.final_maps, &text)?;
    Ok(())
}

/// Compiles an object to a Verilog text, simulates this text over a capture, from the maps of a text if one is named, and writes what
/// its ports gave and the maps in the end. The capture is read twice: through, before anything is written, and then record by record.
pub(crate) fn run_files<S: Shelf>(
    alloc: Global,
    shelf: &mut S,
    files: &Files,
    verilog: &str,
    choice: Choice,
    ifindex: u32,
) -> Result<(), CommandError>
    requires apart { AreDistinct (names_of files.now) }
    requires text { IsTextApart (names_of files.now) verilog.now }
    ensures { EndsIn (AskRun (names_of files.now) verilog.now (chosen_of choice.entry) ifindex) (state_of S.Shelf shelf.old) (state_of S.Shelf shelf.new) result }
{
    let built = read_input(alloc, shelf, files.object, &ProgramForm { choice })?;
    let first = read_maps(alloc, shelf, files.maps, &built.decls)?;
    let mut records = Records::open(alloc)?;
    let survey = survey_capture(shelf, files.capture, &mut records)?;
    write_run(
        alloc,
        shelf,
        files,
        verilog,
        &built,
        &first,
        &survey,
        &mut records,
        ifindex,
    )
}
