//! The rising edge of a design at which no net is active.

ghost use Rattle.std.specs.Prelude.{◌≡◌, None};
ghost use Rattle.net_core.specs.Clock.{after, shown, stopping};
ghost use Rattle.net_core.specs.Ports.{outputs_at};
ghost use Rattle.net_core.specs.View.{netlist_of};
ghost use Rattle.event_sim.specs.Views.{state_of};
ghost use Rattle.event_sim.specs.Inside.{IsState, IsInside};
ghost use Rattle.event_sim.specs.Events.{IsQuiet};
ghost use Rattle.event_sim.specs.Refusals.{MayEdge};

use crate::execute::execute_blocks;
use crate::held::Held;
use crate::outputs::shown;
use crate::values::Values;
use net_core::design::Design;
use net_core::ports::Outputs;

// What the outputs show.
fn outputs_of(design: &Design, values: &Values) -> Outputs
    requires state { IsState (state_of design.now values.now) }
    requires quiet { IsQuiet (state_of design.now values.now) }
    requires runs { stopping (netlist_of design.now) values.now.ports.items values.now.held ≡ None }
    ensures { result ≡ outputs_at (λ port. (shown (netlist_of design.now) values.now.ports.items values.now.held port).value) }
{
    let wires = design.wires.as_slice();
    let nets = values.nets.as_slice();
    let (_, words) = nets.split_at(wires.len());
    let assigns = design.assigns.as_slice();
    shown(assigns, words)
}

/// The outputs, and then the always blocks in this order, into `next` and from there into what is stored.
pub fn step(design: &Design, values: &mut Values, next: &mut Held, blocks: &[u32]) -> Outputs
    requires inside { IsInside design.now values.old next.old }
    requires may { MayEdge (state_of design.now values.old) blocks.now }
    ensures outputs { result ≡ outputs_at (λ port. (shown (netlist_of design.now) values.old.ports.items values.old.held port).value) }
    ensures stored { values.new.held ≡ after (netlist_of design.now) values.old.ports.items values.old.held }
    ensures inputs { values.new.ports ≡ values.old.ports }
    ensures nets { values.new.nets ≡ values.old.nets }
    ensures inside { IsInside design.now values.new next.new }
{
    let outputs = outputs_of(design, values);
    let always = design.always.as_slice();
    execute_blocks(blocks, always, values, next);
    values.held.copy_from(next);
    outputs
}
