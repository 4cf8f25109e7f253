//! The first fault of each section of a design, and of the whole.

ghost use Rattle.std.specs.Prelude.{◌≡◌, ◌+◌, length, map, IfSome};
ghost use Rattle.net_core.specs.View.{netlist_of, wire_of, assign_of, statement_of};
ghost use Rattle.design_rules.specs.Formed as formed;
ghost use Rattle.design_rules.specs.Formed.{TellNew, section_fault, fault_at, first_broken};

use crate::formed::items::{broken_by_assign, broken_by_block, broken_by_declared, broken_by_wire};
use crate::formed::names::new_names;
use crate::formed::ports::broken_behind;
use crate::formed::{NetError, Why};
use net_core::design::Design;

fn declared_fault(design: &Design, flags: Option<&[bool]>) -> Option<NetError>
    requires { IfSome flags (λ all. TellNew (netlist_of design.now).names all.now) }
    ensures { result ≡ section_fault (formed.declared_rules (netlist_of design.now)) 0 0 design.now.declared.items }
{
    let declared = design.declared.as_slice();
    for k in 0..declared.len() {
        if let Some(why) = broken_by_declared(design, flags, k, &declared[k]) {
            return Some(NetError { item: k, why });
        }
    }
    None
}

fn wires_fault(design: &Design, flags: Option<&[bool]>) -> Option<NetError>
    requires { IfSome flags (λ all. TellNew (netlist_of design.now).names all.now) }
    ensures { result ≡ section_fault (formed.wire_rules (netlist_of design.now)) (formed.wires_start (netlist_of design.now)) 0 (map wire_of design.now.wires.items) }
{
    let declared = design.declared.as_slice();
    let wires = design.wires.as_slice();
    for k in 0..wires.len() {
        if let Some(why) = broken_by_wire(design, flags, k, &wires[k]) {
            let item = declared.len() + k;
            return Some(NetError { item, why });
        }
    }
    None
}

fn assigns_fault(design: &Design) -> Option<NetError>
    ensures { result ≡ section_fault (formed.assign_rules (netlist_of design.now)) (formed.assigns_start (netlist_of design.now)) 0 (map assign_of design.now.assigns.items) }
{
    let declared = design.declared.as_slice();
    let wires = design.wires.as_slice();
    let assigns = design.assigns.as_slice();
    for k in 0..assigns.len() {
        if let Some(why) = broken_by_assign(design, k, &assigns[k]) {
            let item = declared.len() + wires.len() + k;
            return Some(NetError { item, why });
        }
    }
    None
}

fn always_fault(design: &Design) -> Option<NetError>
    ensures { result ≡ section_fault (formed.always_rules (netlist_of design.now)) (formed.always_start (netlist_of design.now)) 0 (map statement_of design.now.always.items) }
{
    let declared = design.declared.as_slice();
    let wires = design.wires.as_slice();
    let assigns = design.assigns.as_slice();
    let always = design.always.as_slice();
    for k in 0..always.len() {
        if let Some(why) = broken_by_block(design, k, &always[k]) {
            let item = declared.len() + wires.len() + assigns.len() + k;
            return Some(NetError { item, why });
        }
    }
    None
}

/// What is wrong after the items, at their number.
fn last_fault(design: &Design) -> Option<NetError>
    ensures { result ≡ fault_at (formed.items_of (netlist_of design.now)) (first_broken (formed.last_rules (netlist_of design.now))) }
{
    let declared = design.declared.as_slice();
    let wires = design.wires.as_slice();
    let assigns = design.assigns.as_slice();
    let always = design.always.as_slice();
    let item = declared.len() + wires.len() + assigns.len() + always.len();
    match broken_behind(design) {
        None => None,
        Some(why) => Some(NetError { item, why }),
    }
}

// The first fault of a design, by flags that tell of its names which are new ones, where there are such.
#[tactic(auto, unfolding(crate::specs::Formed::first_fault))]
fn fault_by(design: &Design, flags: Option<&[bool]>) -> Option<NetError>
    requires { IfSome flags (λ all. TellNew (netlist_of design.now).names all.now) }
    ensures { result ≡ formed.first_fault (netlist_of design.now) }
{
    if let Some(fault) = declared_fault(design, flags) {
        return Some(fault);
    }
    if let Some(fault) = wires_fault(design, flags) {
        return Some(fault);
    }
    if let Some(fault) = assigns_fault(design) {
        return Some(fault);
    }
    if let Some(fault) = always_fault(design) {
        return Some(fault);
    }
    last_fault(design)
}

/// The first fault of a design. Which names are new ones is found in time by their number, or by their square where memory is out.
pub fn first_fault(design: &Design) -> Option<NetError>
    ensures { result ≡ formed.first_fault (netlist_of design.now) }
{
    let names = design.names.as_slice();
    match new_names(*design.names.allocator(), names) {
        Ok(flags) => fault_by(design, Some(flags.as_slice())),
        Err(_) => fault_by(design, None),
    }
}
