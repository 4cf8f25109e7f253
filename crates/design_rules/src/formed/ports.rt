//! What is asked after the items of a design: its names, the ports that every design has, an assign for each output.

ghost use Rattle.std.specs.Prelude.{◌≡◌, ◌+◌, ◌==◌, ◌<◌, [], true, if◌then◌else◌, length, map, take, string_bytes};
ghost use Rattle.std.proofs.Common.{get_or};
ghost use Rattle.std.specs.Cmp.Lexicographic.{pointwise};
ghost use Rattle.std.specs.Str.{bytes_eq};
ghost use Rattle.net_core.specs.View.{netlist_of, assign_of};
ghost use Rattle.net_core.specs.Ports as list;
ghost use Rattle.net_core.specs.Width as width;
ghost use Rattle.design_rules.specs.Formed as formed;
ghost use Rattle.design_rules.specs.Formed.{first_broken};

use crate::formed::Why;
use crate::formed::items::is_assigned;
use net_core::design::{Assign, Declared, Design, Port, Wire};
use net_core::ports::{PORT_COUNT, PORT_NAMES, PORTS};

// A text of several.
fn text_at<'a>(texts: &[&'a str], k: usize) -> &'a str
    requires { k < length texts.now }
    ensures { result.now ≡ get_or (map (λ text. text.now) texts.now) k [] }
{
    texts[k]
}

/// The name of a port.
fn port_name(k: usize) -> &'static str
    requires { k < length list.port_names }
    ensures { result.now ≡ get_or list.port_names k [] }
{
    text_at(&PORT_NAMES, k)
}

fn same_port(a: Port, b: Port) -> bool
    ensures { result ≡ formed.same_port a b }
{
    a.output == b.output && a.width == b.width
}

/// Whether a port is the one that every design has there.
pub fn port_matches(ports: &[Port], k: usize) -> bool
    requires there { k < length ports.now }
    requires listed { k < length list.port_list }
    ensures { result ≡ formed.same_port (get_or ports.now k (list.input 0)) (get_or list.port_list k (list.input 0)) }
{
    same_port(ports[k], PORTS[k])
}

/// Whether the ports are those that every design has.
#[tactic(auto, using(crate::proofs::FormedPorts::pointwise_length, crate::proofs::FormedPorts::pointwise_here, crate::proofs::FormedPorts::pointwise_more))]
fn ports_match(ports: &[Port]) -> bool
    ensures { result ≡ pointwise formed.same_port ports.now list.port_list }
{
    if ports.len() != PORT_COUNT {
        return false;
    }
    for k in 0..PORT_COUNT {
        if !port_matches(ports, k) {
            return false;
        }
    }
    true
}

/// Whether a name is that of the port there.
pub fn name_matches(names: &[String], k: usize) -> bool
    requires there { k < length names.now }
    requires listed { k < length list.port_names }
    ensures { result ≡ bytes_eq (get_or (map string_bytes names.now) k []) (get_or list.port_names k []) }
{
    names[k].as_str() == port_name(k)
}

/// Whether names are those of the ports.
#[tactic(auto, using(crate::proofs::FormedPorts::pointwise_length, crate::proofs::FormedPorts::pointwise_here, crate::proofs::FormedPorts::pointwise_more))]
fn names_match(names: &[String]) -> bool
    ensures { result ≡ pointwise bytes_eq (map string_bytes names.now) list.port_names }
{
    if names.len() != PORT_COUNT {
        return false;
    }
    for k in 0..PORT_COUNT {
        if !name_matches(names, k) {
            return false;
        }
    }
    true
}

/// Whether a port has an assign, where it is an output.
#[tactic(auto, using(crate::proofs::FormedAssigns::is_assigned_any))]
fn is_served(made: &[Assign], k: usize, port: Port) -> bool
    ensures { result ≡ (if port.output then width.is_assigned (map assign_of made.now) k else true) }
{
    !port.output || is_assigned(made, k)
}

/// Whether each output is assigned.
fn all_assigned(made: &[Assign], ports: &[Port]) -> bool
    ensures { result ≡ width.all_assigned (map assign_of made.now) 0 ports.now }
{
    for k in 0..ports.len() {
        if !is_served(made, k, ports[k]) {
            return false;
        }
    }
    true
}

/// Whether each name is that of a port, of a declaration or of a wire.
fn names_used(names: &[String], ports: &[Port], declared: &[Declared], wires: &[Wire]) -> bool
    ensures { result ≡ (length names.now == length ports.now + length declared.now + length wires.now) }
{
    names.len() == ports.len() + declared.len() + wires.len()
}

/// Whether the ports have the names of those that every design has.
fn port_names_match(design: &Design) -> bool
    ensures { result ≡ formed.port_names_match (netlist_of design.now) }
{
    let names = design.names.as_slice();
    if names.len() < PORT_COUNT {
        return false;
    }
    names_match(&names[..PORT_COUNT])
}

/// The first rule that is broken after the items.
pub fn broken_behind(design: &Design) -> Option<Why>
    ensures { result ≡ first_broken (formed.last_rules (netlist_of design.now)) }
{
    if !names_used(
        &design.names,
        &design.ports,
        &design.declared,
        &design.wires,
    ) {
        return Some(Why::Syntax);
    }
    if !ports_match(&design.ports) || !port_names_match(design) {
        return Some(Why::Ports);
    }
    if !all_assigned(&design.assigns, &design.ports) {
        return Some(Why::Ports);
    }
    None
}
