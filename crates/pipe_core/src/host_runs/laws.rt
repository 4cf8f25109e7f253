//! What holds of every load and dump on the machine of the pipe. Each function's contract is a law; it computes nothing.

ghost use Rattle.pipe_core.specs.HostRuns.Fits.{LoadsFit};
ghost use Rattle.pipe_core.specs.HostRuns.Loads.{LoadsMaps, LoadsTraces};
ghost use Rattle.pipe_core.specs.HostRuns.Dumps.{DumpsMaps, HoldSoundValues};
ghost use Rattle.pipe_core.specs.HostRuns.Silent.{ReadsAreSilent, RunsAreSilent};

/// A host that reads makes of a clock what a silent one makes of it.
pub fn reads_are_silent()
    ensures clock { ReadsAreSilent }
    ensures runs { RunsAreSilent }
{}

/// What stands at the ports in a load and in a dump fits them, and offers and takes no beat.
pub fn loads_fit()
    ensures { LoadsFit }
{
    hazard_core::cell_core::xdp_state::xdp_maps::laws::pair_laws();
}

/// The clocks of a load make of the machine over the maps that nothing is written to yet the machine over the maps that are loaded.
pub fn loads_maps()
    ensures states { LoadsMaps }
    ensures traces { LoadsTraces }
{
    hazard_core::cell_core::xdp_state::xdp_maps::laws::keeps_over();
    hazard_core::cell_core::xdp_state::xdp_maps::laws::pair_laws();
    hazard_core::cell_core::xdp_state::xdp_maps::laws::index_laws();
}

/// The clocks of a dump show the host what the tables stand for.
pub fn dumps_maps()
    ensures maps { DumpsMaps }
    ensures values { HoldSoundValues }
{}
