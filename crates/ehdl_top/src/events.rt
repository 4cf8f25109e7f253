// A simulator by events, in an order that is drawn from a seed.

ghost use Rattle.std.specs.Prelude.{◌≡◌, ◌+◌, IfOk};
ghost use Rattle.net_core.specs.View.{netlist_of};
ghost use Rattle.net_core.specs.Clock.{first_stored};
ghost use Rattle.verilog_read.specs.design_rules.Formed.{IsWellFormed};
ghost use Rattle.event_sim.specs.Events.{net_count, block_count};

use event_sim::EventSim;
use flow_demo::first_draws;
use net_core::design::Design;
use std::alloc::{AllocError, Global};

// How many nets and always blocks a design has: more than can be counted are want of memory.
fn draw_count(design: &Design) -> Result<usize, AllocError>
    ensures { IfOk result (λ n. n ≡ net_count (netlist_of design.now) + block_count (netlist_of design.now)) }
{
    let (wires, assigns) = (design.wires.as_slice(), design.assigns.as_slice());
    let nets = wires.len() + assigns.len();
    match nets.checked_add(design.always.len()) {
        Some(count) => Ok(count),
        None => Err(AllocError),
    }
}

/// Opens a design whose nets settle, and whose always blocks run, in the order of the draws of a seed: the first draws are for the nets,
/// and those after them for the blocks.
pub(crate) fn open_events(alloc: Global, design: Design, seed: u32) -> Result<EventSim, AllocError>
    requires { IsWellFormed (netlist_of design) }
    ensures netlist { IfOk result (λ sim. sim.netlist ≡ netlist_of design) }
    ensures stored { IfOk result (λ sim. sim.stored ≡ first_stored (netlist_of design)) }
{
    let count = draw_count(&design)?;
    let draws = first_draws(alloc, seed, count)?;
    EventSim::open(alloc, design, &draws)
}
