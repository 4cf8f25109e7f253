//! The ports of a design, which are looked at last.

ghost use Rattle.std.specs.Prelude.{◌≡◌, ◌<◌, ◌&&◌, map, string_bytes};
ghost use Rattle.std.proofs.Common.{not};
ghost use Rattle.net_core.specs.Ports.{port_list, port_names};
ghost use Rattle.net_core.specs.View.{netlist_of};
ghost use Rattle.net_core.specs.Width.{is_assigned};
ghost use Rattle.verilog_read.specs.Designs as designs;
ghost use Rattle.verilog_read.specs.View.{is_listed};

use crate::partial::Partial;
use design_rules::formed::{name_matches, port_matches};
use net_core::design::Port;
use net_core::ports::PORT_COUNT;

// Whether the port of a number is there, and as every design has it.
fn is_listed(names: &[String], ports: &[Port], k: usize) -> bool
    requires { k < PORT_COUNT }
    ensures { result ≡ is_listed (map string_bytes names.now) ports.now k }
{
    if k >= ports.len() {
        return false;
    }
    if k >= names.len() {
        return false;
    }
    name_matches(names, k) && port_matches(ports, k)
}

// The first port that is not as every design has it: another name, direction or width, one too many or too few.
fn other_port(names: &[String], ports: &[Port]) -> Option<usize>
    ensures { result ≡ designs.other_port 0 (map string_bytes names.now) ports.now port_names port_list }
{
    for k in 0..PORT_COUNT {
        if !is_listed(names, ports, k) {
            return Some(k);
        }
    }
    if ports.len() > PORT_COUNT {
        Some(PORT_COUNT)
    } else {
        None
    }
}

// Whether nothing is assigned to a port that is an output.
fn lacks_assign(partial: &Partial, port: Port, k: usize) -> bool
    ensures { result ≡ (port.output && not (is_assigned (netlist_of partial.now).assigns k)) }
{
    port.output && !partial.is_assigned(k)
}

// The first of these outputs to which nothing is assigned.
fn unassigned(partial: &Partial, ports: &[Port]) -> Option<usize>
    ensures { result ≡ designs.unassigned 0 (netlist_of partial.now).assigns ports.now }
{
    for k in 0..ports.len() {
        if lacks_assign(partial, ports[k], k) {
            return Some(k);
        }
    }
    None
}

/// The first port that is not as every design has it, or else the first output to which nothing is assigned.
#[tactic(auto, unfolding(crate::specs::Designs::port_fault))]
pub(crate) fn port_fault(partial: &Partial) -> Option<usize>
    ensures { result ≡ designs.port_fault (netlist_of partial.now) }
{
    match other_port(&partial.design.names, &partial.design.ports) {
        Some(k) => Some(k),
        None => unassigned(partial, &partial.design.ports),
    }
}
