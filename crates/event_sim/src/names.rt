//! What the numbers of nets name.

ghost use Rattle.std.specs.Prelude.{◌≡◌, ◌<◌};
ghost use Rattle.net_core.specs.View.{netlist_of};
ghost use Rattle.event_sim.specs.Events.{net_count, net_named};

use net_core::design::Design;
use net_core::tree::Net;

/// A wire, or the output of an assign.
pub fn net_named(design: &Design, net: u32) -> Net
    requires { net < net_count (netlist_of design.now) }
    ensures { result ≡ net_named (netlist_of design.now) net }
{
    let wires = design.wires.as_slice();
    if (net as usize) < wires.len() {
        Net::Wire(net)
    } else {
        Net::Port(design.assigns[net as usize - wires.len()].port)
    }
}
