//! A design in which common subexpressions are wires.

ghost use Rattle.std.specs.Prelude.{IfOk, IfSome, map};
ghost use Rattle.net_core.specs.declared.tree.Net.{Net};
ghost use Rattle.net_core.specs.Value.{Env};
ghost use Rattle.net_core.specs.View.{netlist_of, wire_of};
ghost use Rattle.net_core.specs.SameClocks.Same.{ShowTheSame};
ghost use Rattle.net_optimize.specs.Reading.{ReadsWhatIsThere};
ghost use Rattle.net_optimize.specs.SharedExpressions.Standing.{Stand, ArePlaced, NoneStops};

use crate::names::copied_names;
use crate::shared_expressions::checking::are_placed;
use crate::shared_expressions::counting::counted;
use crate::shared_expressions::statements::{rewritten_always, rewritten_assigns};
use crate::shared_expressions::table::{Table, table_of};
use net_core::design::Design;
use std::alloc::{AllocError, Global};

// The names of a design that has so many wires more.
fn with_names(alloc: Global, design: &Design, wires: usize) -> Result<Vec<String>, AllocError> {
    let mut names = copied_names(alloc, &design.names)?;
    for k in design.wires.len()..wires {
        names.push(format!(in alloc; "w_{k}")?)?;
    }
    Ok(names)
}

// The design with the wires of a table.
fn made(alloc: Global, design: &Design, table: Table) -> Result<Design, AllocError>
    requires placed { (v u : Env Net) → Stand table.numbers.items (map wire_of table.wires.items) v u → ArePlaced v u table.numbers.items (map wire_of design.now.wires.items) }
    requires goes { (v u : Env Net) → Stand table.numbers.items (map wire_of table.wires.items) v u → NoneStops u (map wire_of design.now.wires.items) → NoneStops v (map wire_of table.wires.items) }
    ensures { IfOk result (λ d. ReadsWhatIsThere (netlist_of design.now) → ReadsWhatIsThere (netlist_of d) → ShowTheSame (netlist_of design.now) (netlist_of d)) }
{
    let assigns = rewritten_assigns(alloc, &table, &design.assigns)?;
    let always = rewritten_always(alloc, &table, &design.always)?;
    let names = with_names(alloc, design, table.wires.len())?;
    Ok(Design {
        names,
        ports: Vec::from_slice(alloc, &design.ports)?,
        declared: Vec::from_slice(alloc, &design.declared)?,
        wires: table.wires,
        assigns,
        always,
    })
}

/// A design that shows the same, in which what stands at several places is a wire, evaluated once.
pub(crate) fn shared(alloc: Global, design: &Design) -> Result<Option<Design>, AllocError>
    ensures { IfOk result (λ n. IfSome n (λ d. ReadsWhatIsThere (netlist_of design.now) → ReadsWhatIsThere (netlist_of d) → ShowTheSame (netlist_of design.now) (netlist_of d))) }
{
    let counts = counted(alloc, design)?;
    let table = table_of(alloc, design, &counts)?;
    if !are_placed(alloc, &table, &design.wires)? {
        return Ok(None);
    }
    let next = made(alloc, design, table)?;
    Ok(Some(next))
}
