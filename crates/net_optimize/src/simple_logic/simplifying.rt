//! A design of fewer operators.

ghost use Rattle.std.specs.Prelude.{IfOk};
ghost use Rattle.net_core.specs.View.{netlist_of};
ghost use Rattle.net_core.specs.SameClocks.Same.{ShowTheSame};
ghost use Rattle.net_optimize.specs.Reading.{ReadsWhatIsThere};

use crate::names::copied_names;
use crate::simple_logic::statements::{simple_always, simple_assigns};
use crate::simple_logic::wires::{Simple, simple_wires};
use net_core::design::Design;
use net_rules::net_sizes::laws::ports_have_sizes;
use net_rules::net_sizes::register_sizes;
use std::alloc::{AllocError, Global};

/// A design that shows the same, whose expressions have fewer operators: what is known of the sizes of registers, wires and ports makes them
/// shorter, and of registers that are set twice in a row the last time counts.
pub(crate) fn simpler(alloc: Global, design: &Design) -> Result<Design, AllocError>
    ensures { IfOk result (λ d. ReadsWhatIsThere (netlist_of design.now) → ReadsWhatIsThere (netlist_of d) → ShowTheSame (netlist_of design.now) (netlist_of d)) }
{
    ports_have_sizes();
    let registers = register_sizes(alloc, design)?;
    let names = copied_names(alloc, &design.names)?;
    let ports = Vec::from_slice(alloc, &design.ports)?;
    let declared = Vec::from_slice(alloc, &design.declared)?;
    let Simple { facts, wires } = simple_wires(alloc, registers, &design.wires)?;
    let assigns = simple_assigns(alloc, &facts, &design.assigns)?;
    let always = simple_always(alloc, &facts, &design.always)?;
    Ok(Design {
        names,
        ports,
        declared,
        wires,
        assigns,
        always,
    })
}
