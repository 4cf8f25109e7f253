// A design that is driven: what it is given up for, and the maps that the host then reads.

ghost use Rattle.std.specs.Prelude.{◌≡◌, ◌≤◌, ◌<◌, ◌^◌, Some, All, length, map, IfOk};
ghost use Rattle.verilog_read.specs.design_rules.Formed.{IsWellFormed};
ghost use Rattle.xdp_maps.specs.Contents.{IsWithinLimits};
ghost use Rattle.port_drive.specs.realization.Bounds.{clock_bound, most_beats};
ghost use Rattle.ehdl_top.specs.Simulation.{dumped};
ghost use Rattle.ehdl_top.specs.Steps.{StopsInside, error_of};

use crate::error::{CommandError, NetName};
use beat_core::Timed;
use clock_sim::Clocked;
use port_drive::{DriveError, dump};
use std::alloc::{AllocError, Global};
use xdp_maps::decl::MapDecl;
use xdp_maps::state::Maps;

/// What a simulation is given up for, with the name of the net where a clock stopped.
pub(crate) fn give_up<C: Clocked>(
    alloc: Global,
    sim: &C,
    error: DriveError,
) -> Result<CommandError, AllocError>
    requires { StopsInside (C.netlist sim.now) error }
    ensures { IfOk result (λ e. error_of (C.netlist sim.now) error ≡ Some e) }
{
    match error {
        DriveError::X(x) => {
            let name = NetName::new(alloc, sim.name(x.net))?;
            Ok(CommandError::XValue(name))
        }
        DriveError::Late {
            answers,
            frames,
            ..
        } => Ok(CommandError::Late { answers, frames }),
        DriveError::NoMemory => Err(AllocError),
    }
}

/// The maps that a design shows the host, unless a clock stops.
pub(crate) fn dump_design<C: Clocked>(
    alloc: Global,
    sim: &mut C,
    decls: &[MapDecl],
) -> Result<Result<Maps, CommandError>, AllocError>
    requires formed { IsWellFormed (C.netlist sim.old) }
    requires limits { All IsWithinLimits decls.now }
    requires few { length decls.now ≤ 16 }
    ensures { IfOk result (λ end. end ≡ dumped (C.netlist sim.old) (C.stored sim.old) decls.now) }
{
    match dump(alloc, sim, decls) {
        Ok(maps) => Ok(Ok(maps)),
        Err(error) => {
            let error = give_up(alloc, sim, error)?;
            Ok(Err(error))
        }
    }
}

/// The clocks that these packets may take: `n * (S + 2 * B + Q + 8)` for n frames of at most B beats, S the last stage and Q the record sites.
pub(crate) fn clock_limit(packets: &[Timed], rows: u16, records: u16) -> u64
    requires { length packets.now < 2 ^ 32 }
    ensures { result ≡ clock_bound (length packets.now) rows (most_beats (map (λ p. p.frame) packets.now)) records }
{
    let mut most = 0;
    for packet in packets {
        most = u64::max(most, packet.frame.len().div_ceil(8) as u64);
    }
    packets.len() as u64 * (u64::from(rows) + 2 * most + u64::from(records) + 8)
}
