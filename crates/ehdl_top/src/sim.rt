// The command `sim`.

ghost use Rattle.std.specs.Prelude.{◌≡◌, ◌≤◌, List, length, All, IsTrue};
ghost use Rattle.pcap_core.specs.Format.{Packet};
ghost use Rattle.net_core.specs.View.{netlist_of};
ghost use Rattle.net_core.specs.Clock.{first_stored};
ghost use Rattle.port_drive.specs.Driving.{undriven};
ghost use Rattle.verilog_read.specs.design_rules.Formed.{IsWellFormed};
ghost use Rattle.xdp_maps.specs.Contents.{IsWithinLimits};
ghost use Rattle.xdp_object.specs.Choice.{chosen_of};
ghost use Rattle.command_line.specs.Request.{AskSim, names_of};
ghost use Rattle.capture_run.specs.States.{state_of};
ghost use Rattle.capture_run.specs.Captures.{HoldsCapture};
ghost use Rattle.capture_run.specs.Runs.{result_names};
ghost use Rattle.ehdl_top.specs.Steps.{AreDistinct, EndsIn, IsOver, IsGivenUpDrive, StopsAs, StopsWith, StreamsSim, FinishesSim, WritesSim, written_names};

use crate::capture::survey_capture;
use crate::drive::{dump_design, give_up};
use crate::error::{CommandError, NetName};
use crate::events::open_events;
use crate::form::read_input;
use crate::maps::read_maps;
use crate::object::ObjectForm;
use crate::verilog::TextForm;
use capture_run::{Records, ResultRoom, RunError, Survey, begin_results, drive_capture, put_file};
use clock_sim::{Clocked, Sim};
use command_line::{Choice, Files};
use maps_text::write_maps_text;
use net_core::design::Design;
use port_drive::{Driver, load};
use shelf_core::Shelf;
use std::alloc::{AllocError, Global};
use xdp_maps::decl::MapDecl;
use xdp_maps::state::Maps;

// What a command stops for whose run over a capture ended early, with the name of the net where a clock stopped.
fn run_error<C: Clocked>(alloc: Global, sim: &C, error: RunError) -> CommandError
    requires { StopsAs (C.netlist sim.now) error }
    ensures { StopsWith (C.netlist sim.now) error result }
{
    match error {
        RunError::X(x) => match NetName::new(alloc, sim.name(x.net)) {
            Ok(name) => CommandError::XValue(name),
            Err(error) => CommandError::from(error),
        },
        RunError::Late { answers, frames } => CommandError::Late { answers, frames },
        RunError::NoMemory => CommandError::NoMemory,
        RunError::Capture(error) => CommandError::from(error),
        RunError::Unwritten => CommandError::WriteFault,
    }
}

// Drives a design over a capture that was surveyed, and writes what its ports give as it comes.
fn stream_sim<S: Shelf, C: Clocked>(
    alloc: Global,
    shelf: &mut S,
    files: &Files,
    survey: &Survey,
    ahead: &mut Records,
    behind: &mut Records,
    room: &mut ResultRoom,
    driver: &mut Driver,
    sim: &mut C,
) -> Result<(), CommandError>
    requires apart { AreDistinct (names_of files.now) }
    requires undriven { driver.old ≡ undriven driver.old.ifindex driver.old.limit }
    requires formed { IsWellFormed (C.netlist sim.old) }
    ensures netlist { C.netlist sim.new ≡ C.netlist sim.old }
    ensures told { IsTrue (S.tells shelf.old) → (packets : List Packet) → HoldsCapture survey.now.stream (S.held shelf.old files.now.capture.now) packets → survey.now.count ≡ length packets → StreamsSim (names_of files.now) (C.netlist sim.old) (C.stored sim.old) (C.stored sim.new) driver.old.ifindex driver.old.limit survey.now.stream.magic packets result (state_of S.Shelf shelf.old) (state_of S.Shelf shelf.new) }
    ensures over { IsOver IsGivenUpDrive files.now.capture.now (result_names (names_of files.now)) result (state_of S.Shelf shelf.old) (state_of S.Shelf shelf.new) }
{
    ahead.begin(shelf, files.capture)?;
    behind.begin(shelf, files.capture)?;
    begin_results(shelf, files, survey.stream.magic())?;
    match drive_capture(shelf, files, survey, ahead, behind, room, driver, sim) {
        Ok(()) => Ok(()),
        Err(error) => Err(run_error(alloc, sim, error)),
    }
}

// Writes the maps that a design shows the host after its drive, unless a clock stops.
fn finish_sim<S: Shelf, C: Clocked>(
    alloc: Global,
    shelf: &mut S,
    name: &str,
    sim: &mut C,
    decls: &[MapDecl],
) -> Result<(), CommandError>
    requires formed { IsWellFormed (C.netlist sim.old) }
    requires limits { All IsWithinLimits decls.now }
    requires few { length decls.now ≤ 16 }
    ensures { FinishesSim name.now (C.netlist sim.old) (C.stored sim.old) decls.now result (state_of S.Shelf shelf.old) (state_of S.Shelf shelf.new) }
{
    let end = dump_design(alloc, sim, decls)?;
    let maps = end?;
    let text = write_maps_text(alloc, &maps)?;
    put_file(shelf, name, &text)?;
    Ok(())
}

// Simulates a design that stores its first values over a capture that was surveyed: these maps are loaded, the packets are driven through, and
// the maps are dumped. It writes what the ports give as it comes, and the maps in the end.
fn write_sim<S: Shelf, C: Clocked>(
    alloc: Global,
    shelf: &mut S,
    files: &Files,
    maps: &Maps,
    survey: &Survey,
    ahead: &mut Records,
    driver: &mut Driver,
    sim: &mut C,
) -> Result<(), CommandError>
    requires apart { AreDistinct (names_of files.now) }
    requires undriven { driver.old ≡ undriven driver.old.ifindex driver.old.limit }
    requires formed { IsWellFormed (C.netlist sim.old) }
    requires first { C.stored sim.old ≡ first_stored (C.netlist sim.old) }
    requires limits { All IsWithinLimits maps.now.decls }
    requires few { length maps.now.decls ≤ 16 }
    ensures told { IsTrue (S.tells shelf.old) → (packets : List Packet) → HoldsCapture survey.now.stream (S.held shelf.old files.now.capture.now) packets → survey.now.count ≡ length packets → WritesSim (names_of files.now) (C.netlist sim.old) maps.now driver.old.ifindex driver.old.limit survey.now.stream.magic packets result (state_of S.Shelf shelf.old) (state_of S.Shelf shelf.new) }
    ensures over { IsOver IsGivenUpDrive files.now.capture.now (written_names (names_of files.now)) result (state_of S.Shelf shelf.old) (state_of S.Shelf shelf.new) }
{
    let decls = maps.decls();
    let mut behind = Records::open(alloc)?;
    let mut room = ResultRoom::new(alloc)?;
    match load(sim, maps) {
        Ok(()) => {
            stream_sim(
                alloc,
                shelf,
                files,
                survey,
                ahead,
                &mut behind,
                &mut room,
                driver,
                sim,
            )?;
            finish_sim(alloc, shelf, files.final_maps, sim, decls)
        }
        Err(error) => {
            let error = give_up(alloc, sim, error)?;
            begin_results(shelf, files, survey.stream.magic())?;
            Err(error)
        }
    }
}

// The same of any design in at most so many clocks, by events where a seed of their order is given.
fn simulate<S: Shelf>(
    alloc: Global,
    shelf: &mut S,
    files: &Files,
    design: Design,
    maps: &Maps,
    survey: &Survey,
    ahead: &mut Records,
    ifindex: u32,
    clocks: u32,
    events: Option<u32>,
) -> Result<(), CommandError>
    requires apart { AreDistinct (names_of files.now) }
    requires formed { IsWellFormed (netlist_of design) }
    requires limits { All IsWithinLimits maps.now.decls }
    requires few { length maps.now.decls ≤ 16 }
    ensures told { IsTrue (S.tells shelf.old) → (packets : List Packet) → HoldsCapture survey.now.stream (S.held shelf.old files.now.capture.now) packets → survey.now.count ≡ length packets → WritesSim (names_of files.now) (netlist_of design) maps.now ifindex clocks survey.now.stream.magic packets result (state_of S.Shelf shelf.old) (state_of S.Shelf shelf.new) }
    ensures over { IsOver IsGivenUpDrive files.now.capture.now (written_names (names_of files.now)) result (state_of S.Shelf shelf.old) (state_of S.Shelf shelf.new) }
{
    let mut driver = Driver::open(alloc, ifindex, u64::from(clocks))?;
    match events {
        None => {
            let mut sim = Sim::open(alloc, design)?;
            write_sim(
                alloc,
                shelf,
                files,
                maps,
                survey,
                ahead,
                &mut driver,
                &mut sim,
            )
        }
        Some(seed) => {
            let mut sim = open_events(alloc, design, seed)?;
            write_sim(
                alloc,
                shelf,
                files,
                maps,
                survey,
                ahead,
                &mut driver,
                &mut sim,
            )
        }
    }
}

/// Simulates a Verilog text over a capture in at most so many clocks, from the maps of a text if one is named, and writes what its ports
/// gave and the maps in the end. Of the object only the declarations of its maps count. Where a seed is given it simulates by events, in
/// the order that is drawn from the seed, and what is written is the same. The capture is read twice: through, before anything is written,
/// and then record by record.
pub(crate) fn sim_files<S: Shelf>(
    alloc: Global,
    shelf: &mut S,
    files: &Files,
    verilog: &str,
    choice: Choice,
    ifindex: u32,
    clocks: u32,
    events: Option<u32>,
) -> Result<(), CommandError>
    requires { AreDistinct (names_of files.now) }
    ensures { EndsIn (AskSim (names_of files.now) verilog.now (chosen_of choice.entry) ifindex clocks events) (state_of S.Shelf shelf.old) (state_of S.Shelf shelf.new) result }
{
    let program = read_input(alloc, shelf, files.object, &ObjectForm { choice })?;
    let design = read_input(alloc, shelf, verilog, &TextForm)?;
    let maps = read_maps(alloc, shelf, files.maps, program.decls())?;
    let mut records = Records::open(alloc)?;
    let survey = survey_capture(shelf, files.capture, &mut records)?;
    simulate(
        alloc,
        shelf,
        files,
        design,
        &maps,
        &survey,
        &mut records,
        ifindex,
        clocks,
        events,
    )
}
