// A pipeline that was built of a program, simulated.

ghost use Rattle.std.specs.Prelude.{◌≡◌, ◌<◌, ◌≤◌, ◌^◌, [], length, All, IfOk, OnOk};
ghost use Rattle.std.specs.List.{AllByRecursion};
ghost use Rattle.xdp_maps.specs.Contents.{IsWithinLimits};
ghost use Rattle.xdp_maps.specs.State.{MapState};
ghost use Rattle.xdp_object.specs.xdp_machine.Program.{XdpProgram};
ghost use Rattle.net_core.specs.View.{netlist_of};
ghost use Rattle.net_core.specs.Clock.{first_stored};
ghost use Rattle.net_core.specs.Trace.{NeverStops, stored_after};
ghost use Rattle.port_drive.specs.realization.History.{Answered, answers_given};
ghost use Rattle.port_drive.specs.realization.HostHistory.Host.{load, ShowsMaps};
ghost use Rattle.port_drive.specs.Reports.{full_drive, given_in};
ghost use Rattle.verilog_read.specs.design_rules.Formed.{IsWellFormed};
ghost use Rattle.ehdl_build.specs.Compiled.{IsSequential};
ghost use Rattle.capture_run.specs.Results.{came_by};
ghost use Rattle.capture_run.specs.Runs.{IsLegal};
ghost use Rattle.ehdl_top.specs.Steps.{IsRealized, IsPipelineOf};

use crate::drive::clock_limit;
use crate::error::CommandError;
use crate::verilog::read_verilog;
use beat_core::Timed;
use clock_sim::Sim;
use ehdl_build::Built;
use net_core::design::Design;
use port_drive::{Answers, DriveError, drive, dump, load};
use std::alloc::{AllocError, Global};
use xdp_maps::decl::MapDecl;
use xdp_maps::state::Maps;

/// What a pipeline answers, and the maps that it shows the host after the last answer.
#[derive(Drop)]
pub(crate) struct Ran {
    pub(crate) answers: Answers,
    pub(crate) maps: Maps,
}

// Opens a design, and has the host load maps, for which no clock of it stops.
fn open_loaded(alloc: Global, design: Design, maps: &Maps) -> Result<Sim, AllocError>
    requires formed { IsWellFormed (netlist_of design) }
    requires few { length maps.now.decls ≤ 16 }
    requires goes { NeverStops (netlist_of design) (first_stored (netlist_of design)) (load maps.now) }
    ensures netlist { IfOk result (λ sim. sim.netlist ≡ netlist_of design) }
    ensures stored { IfOk result (λ sim. sim.stored ≡ stored_after (netlist_of design) (first_stored (netlist_of design)) (load maps.now)) }
{
    let mut sim = Sim::open(alloc, design)?;
    match load(&mut sim, maps) {
        Ok(()) => Ok(sim),
        // No clock stops, and a load takes no memory.
        Err(_) => unreachable!(),
    }
}

/// Opens the pipeline of the text that was built of a program, and has the host load maps.
pub(crate) fn open_pipeline(alloc: Global, built: &Built, first: &Maps) -> Result<Sim, AllocError>
    requires realized { (program : XdpProgram) × IsRealized built.now program }
    requires decls { first.now.decls ≡ built.now.decls.items }
    ensures pipeline { IfOk result (λ sim. (program : XdpProgram) → IsRealized built.now program → IsPipelineOf program built.now first.now sim.netlist sim.stored) }
{
    // (what maps are over)
    let _decls = first.decls();
    match read_verilog(alloc, &built.text) {
        Ok(design) => open_loaded(alloc, design, first),
        Err(CommandError::NoMemory) => Err(AllocError),
        // The text spells a design.
        Err(_) => unreachable!(),
    }
}

// Drives a design that answers all packets in this time.
fn answers_in_time(
    alloc: Global,
    sim: &mut Sim,
    packets: &[Timed],
    ifindex: u32,
    clocks: u64,
) -> Result<Answers, AllocError>
    requires { (full_drive sim.old.netlist ifindex sim.old.stored packets.now clocks).ended ≡ Answered }
    ensures netlist { sim.new.netlist ≡ sim.old.netlist }
    ensures answers { IfOk result (λ answers. answers ≡ answers_given [] (full_drive sim.old.netlist ifindex sim.old.stored packets.now clocks).trace) }
    ensures stored { OnOk result (sim.new.stored ≡ stored_after sim.old.netlist sim.old.stored (given_in (full_drive sim.old.netlist ifindex sim.old.stored packets.now clocks).trace)) }
{
    let mut answers = Answers::new(alloc);
    match drive(alloc, sim, packets, ifindex, clocks, &mut answers) {
        Ok(_drive) => Ok(answers),
        Err(DriveError::NoMemory) => Err(AllocError),
        // All answers are there.
        Err(_) => unreachable!(),
    }
}

/// The maps that a design shows the host.
pub(crate) fn shown_maps(
    alloc: Global,
    sim: &mut Sim,
    decls: &[MapDecl],
) -> Result<Maps, AllocError>
    requires limits { All IsWithinLimits decls.now }
    requires few { length decls.now ≤ 16 }
    requires shows { (maps : MapState) × (maps.decls ≡ decls.now) × ShowsMaps sim.old.netlist sim.old.stored maps }
    ensures { (maps : MapState) → maps.decls ≡ decls.now → ShowsMaps sim.old.netlist sim.old.stored maps → IfOk result (λ shown. shown ≡ maps) }
{
    match dump(alloc, sim, decls) {
        Ok(maps) => Ok(maps),
        Err(DriveError::NoMemory) => Err(AllocError),
        // What the host reads are maps.
        Err(_) => unreachable!(),
    }
}

/// What a pipeline that was built of a program answers, from these maps on, and the maps after the last answer: those of sequential
/// execution.
pub(crate) fn run_pipeline(
    alloc: Global,
    built: &Built,
    first: &Maps,
    packets: &[Timed],
    ifindex: u32,
) -> Result<Ran, AllocError>
    requires realized { (program : XdpProgram) × IsRealized built.now program }
    requires decls { first.now.decls ≡ built.now.decls.items }
    requires many { length packets.now < 2 ^ 32 }
    requires packets { AllByRecursion IsLegal packets.now }
    ensures sequential { (program : XdpProgram) → IsRealized built.now program → IfOk result (λ ran. IsSequential program first.now (came_by ifindex packets.now) ran.answers ran.maps) }
    ensures few { IfOk result (λ ran. length ran.maps.decls ≤ 16) }
{
    let decls = first.decls();
    let limit = clock_limit(packets, built.rows, built.records);
    let mut sim = open_pipeline(alloc, built, first)?;
    let answers = answers_in_time(alloc, &mut sim, packets, ifindex, limit)?;
    let maps = shown_maps(alloc, &mut sim, decls)?;
    Ok(Ran { answers, maps })
}
