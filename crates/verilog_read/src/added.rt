//! A design with one more port or item, after those that it has.

ghost use Rattle.std.specs.Prelude.{◌≡◌, ◌∷◌, ◌++◌, [], suc, map, string_bytes, IfOk, OnOk};
ghost use Rattle.net_core.specs.View.{statement_of, assign_of, netlist_of, wire_of};
ghost use Rattle.verilog_read.specs.Entries.{port_entry};
ghost use Rattle.verilog_read.specs.Header as header;
ghost use Rattle.verilog_read.specs.Declarations as declarations;
ghost use Rattle.verilog_read.specs.Items as items;
ghost use Rattle.verilog_read.specs.View.{AddsEntry, IsNew, NoWires, OnlyPorts, declared_entry, found_in, with_one};

use crate::flags::raise;
use crate::partial::{Counts, Partial};
use crate::targets::note;
use indexmap::IndexMap;
use net_core::design::{Assign, Declared, Port, Wire};
use net_core::tree::{Net, Stmt};
use std::alloc::{AllocError, Global};
use verilog_expression::Entry;

// The number of the next of so many nets. A text with more names than 32 bits count takes more memory than there is.
fn next_number(count: usize) -> Result<u32, AllocError>
    ensures { IfOk result (λ k. k ≡ count) }
{
    match u32::try_from(count) {
        Ok(number) => Ok(number),
        Err(_) => Err(AllocError),
    }
}

// One more than a count.
fn more(count: u32) -> Result<u32, AllocError>
    ensures { IfOk result (λ k. k ≡ suc count) }
{
    match count.checked_add(1) {
        Some(more) => Ok(more),
        None => Err(AllocError),
    }
}

// A name after others that a design has, and what it stands for. It is new.
fn add_name<'a>(
    alloc: Global,
    names: &mut Vec<String>,
    entries: &mut IndexMap<&'a [u8], Entry>,
    name: &'a str,
    entry: Entry,
) -> Result<(), AllocError>
    requires { found_in entries.old.entries name.now ≡ None }
    ensures names { OnOk result (map string_bytes names.new.items ≡ map string_bytes names.old.items ++ name.now ∷ []) }
    ensures entries { OnOk result (AddsEntry entries.old.entries entries.new.entries name.now entry) }
{
    entries.insert(name.as_bytes(), entry)?;
    names.push(String::from_str(alloc, name)?)?;
    Ok(())
}

// What the name of a port of a number stands for.
fn port_entry(number: u32, port: Port) -> Entry
    ensures { result ≡ port_entry number port }
{
    if port.output {
        Entry::Output {
            port: number,
            width: port.width,
        }
    } else {
        Entry::Value {
            net: Net::Port(number),
            width: port.width,
        }
    }
}

/// A design with one more port. Its name is new.
pub(crate) fn with_port<'a>(
    alloc: Global,
    partial: Partial<'a>,
    name: &'a str,
    port: Port,
) -> Result<Partial<'a>, AllocError>
    requires fresh { IsNew (netlist_of partial) name.now }
    requires only { OnlyPorts (netlist_of partial) }
    ensures { IfOk result (λ d. netlist_of d ≡ header.with_port name.now port (netlist_of partial.entry)) }
{
    let Partial {
        mut design,
        mut entries,
        counts,
        targets,
        assigned,
    } = partial;
    let entry = port_entry(next_number(design.ports.len())?, port);
    add_name(alloc, &mut design.names, &mut entries, name, entry)?;
    design.ports.push(port)?;
    Ok(Partial {
        design,
        entries,
        counts,
        targets,
        assigned,
    })
}

// What the name of what is declared next stands for.
fn declared_entry(counts: Counts, item: Declared) -> Entry
    ensures { result ≡ declared_entry counts item }
{
    match item {
        Declared::Integer => Entry::Integer(counts.integers),
        Declared::Register(first) => Entry::Value {
            net: Net::Register(counts.registers),
            width: first.width,
        },
        Declared::Memory { index, first, .. } => Entry::Words {
            memory: counts.memories,
            index,
            width: first.width,
        },
    }
}

// The counts with one more.
fn with_one(counts: Counts, item: Declared) -> Result<Counts, AllocError>
    ensures { IfOk result (λ c. c ≡ with_one item counts) }
{
    match item {
        Declared::Integer => {
            let integers = more(counts.integers)?;
            Ok(Counts { integers, ..counts })
        }
        Declared::Register(_) => {
            let registers = more(counts.registers)?;
            Ok(Counts {
                registers,
                ..counts
            })
        }
        Declared::Memory { .. } => {
            let memories = more(counts.memories)?;
            Ok(Counts { memories, ..counts })
        }
    }
}

/// A design with one more integer, register or memory. Its name is new, and no wire stands before it.
pub(crate) fn with_declared<'a>(
    alloc: Global,
    partial: Partial<'a>,
    name: &'a str,
    item: Declared,
) -> Result<Partial<'a>, AllocError>
    requires fresh { IsNew (netlist_of partial) name.now }
    requires wires { NoWires (netlist_of partial) }
    ensures { IfOk result (λ d. netlist_of d ≡ declarations.with_declared name.now item (netlist_of partial.entry)) }
{
    let Partial {
        mut design,
        mut entries,
        counts,
        targets,
        assigned,
    } = partial;
    let entry = declared_entry(counts, item);
    let counts = with_one(counts, item)?;
    add_name(alloc, &mut design.names, &mut entries, name, entry)?;
    design.declared.push(item)?;
    Ok(Partial {
        design,
        entries,
        counts,
        targets,
        assigned,
    })
}

/// A design with one more wire. Its name is new.
pub(crate) fn with_wire<'a>(
    alloc: Global,
    partial: Partial<'a>,
    name: &'a str,
    wire: Wire,
) -> Result<Partial<'a>, AllocError>
    requires { IsNew (netlist_of partial) name.now }
    ensures { IfOk result (λ d. netlist_of d ≡ items.with_wire name.now (wire_of wire) (netlist_of partial.entry)) }
{
    let Partial {
        mut design,
        mut entries,
        counts,
        targets,
        assigned,
    } = partial;
    let number = next_number(design.wires.len())?;
    let entry = Entry::Value {
        net: Net::Wire(number),
        width: wire.width,
    };
    add_name(alloc, &mut design.names, &mut entries, name, entry)?;
    design.wires.push(wire)?;
    Ok(Partial {
        design,
        entries,
        counts,
        targets,
        assigned,
    })
}

/// A design with one more assign.
pub(crate) fn with_assign<'a>(
    partial: Partial<'a>,
    assign: Assign,
) -> Result<Partial<'a>, AllocError>
    ensures { IfOk result (λ d. netlist_of d ≡ items.with_assign (assign_of assign) (netlist_of partial.entry)) }
{
    let Partial {
        mut design,
        entries,
        counts,
        targets,
        mut assigned,
    } = partial;
    raise(&mut assigned, assign.port)?;
    design.assigns.push(assign)?;
    Ok(Partial {
        design,
        entries,
        counts,
        targets,
        assigned,
    })
}

/// A design with one more always block.
pub(crate) fn with_always<'a>(
    partial: Partial<'a>,
    always: Stmt<Net>,
) -> Result<Partial<'a>, AllocError>
    ensures { IfOk result (λ d. netlist_of d ≡ items.with_always (statement_of always) (netlist_of partial.entry)) }
{
    let Partial {
        mut design,
        entries,
        counts,
        mut targets,
        assigned,
    } = partial;
    note(&always, &mut targets)?;
    design.always.push(always)?;
    Ok(Partial {
        design,
        entries,
        counts,
        targets,
        assigned,
    })
}
