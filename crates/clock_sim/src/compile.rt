//! From a design to its steps.

ghost use Rattle.std.specs.Prelude.{◌≡◌, length, map, IfOk, IsTrue};
ghost use Rattle.net_core.specs.Clock.{first_words, first_memories, first_stored};
ghost use Rattle.net_core.specs.View.{netlist_of};
ghost use Rattle.net_core.specs.Width.{declared_typed, IsTyped};
ghost use Rattle.clock_sim.specs.Flat.{numbers};
ghost use Rattle.clock_sim.specs.Layouts.{stored_of, IsReady, constants_in, slots_in, Begins, Compiles};

use crate::builder::{Operand, StepBuilder};
use crate::clock::{CompiledDesign, write_at};
use crate::edge::{Edge, add_always};
use crate::layout::{Layout, layout_of, port_operands_of};
use crate::memory::MemoryWords;
use crate::operands::Operands;
use crate::order::{groups_of, reorder};
use crate::outputs::add_outputs;
use crate::wires::{Divisor, add_wires, divisors_of};
use net_core::design::{Declared, Design};
use net_core::ports::PORT_COUNT;
use std::alloc::{AllocError, Global};

/// A compiled design, and what a clock finds at first.
#[derive(Drop)]
pub struct Start {
    pub compiled: CompiledDesign,
    pub slots: Vec<u64>,
    pub contents: Vec<MemoryWords>,
    pub next: Vec<u64>,
}

// The slots of operands.
fn slots_of(alloc: Global, operands: &[Operand]) -> Result<Vec<u32>, AllocError>
    ensures { IfOk result (λ v. v.items ≡ slots_in operands.now) }
{
    let mut slots = Vec::new(alloc);
    for operand in operands {
        slots.push(operand.slot)?;
    }
    Ok(slots)
}

// The constants in their slots, and zeros in the others.
fn constants_of(alloc: Global, slots: &[Option<u64>]) -> Result<Vec<u64>, AllocError>
    ensures { IfOk result (λ v. v.items ≡ constants_in slots.now) }
{
    let mut numbers = Vec::new(alloc);
    for slot in slots {
        numbers.push(slot.unwrap_or(0))?;
    }
    Ok(numbers)
}

/// The divisors of a design, and the slot of what each port shows.
#[derive(Drop)]
pub struct Parts {
    pub divisors: Vec<Divisor>,
    pub shown: Vec<u32>,
}

/// What stands where before any step.
#[derive(Drop)]
pub struct Beginning {
    pub operands: Operands,
    pub builder: StepBuilder,
    pub edge: Edge,
    pub numbers: Vec<u64>,
    pub contents: Vec<MemoryWords>,
}

// Before any step the words of ports and registers stand in the first slots, and an edge leaves the registers as they are.
fn begin(alloc: Global, declared: &[Declared]) -> Result<Beginning, AllocError>
    requires { IsTrue (declared_typed declared.now) }
    ensures begins { IfOk result (λ b. Begins declared.now b.operands b.builder b.edge) }
    ensures values { IfOk result (λ b. b.numbers.items ≡ numbers (first_words declared.now)) }
    ensures contents { IfOk result (λ b. b.contents.items ≡ map numbers (first_memories declared.now)) }
{
    let layout = layout_of(alloc, declared)?;
    let Layout {
        registers,
        memories,
        numbers,
        contents,
    } = layout;
    let builder = StepBuilder::new(alloc, PORT_COUNT + registers.len())?;
    let next = slots_of(alloc, &registers)?;
    let stores = Vec::new(alloc);
    let edge = Edge { next, stores };
    let ports = port_operands_of(alloc)?;
    let wires = Vec::new(alloc);
    let operands = Operands {
        ports,
        registers,
        memories,
        wires,
    };
    Ok(Beginning {
        operands,
        builder,
        edge,
        numbers,
        contents,
    })
}

// Adds the steps of wires, outputs and always blocks.
fn add_parts(
    alloc: Global,
    design: &Design,
    operands: &mut Operands,
    builder: &mut StepBuilder,
    edge: &mut Edge,
) -> Result<Parts, AllocError>
    requires typed { IsTyped (netlist_of design.now) }
    requires begins { Begins design.now.declared.items operands.old builder.old edge.old }
    ensures { IfOk result (λ parts. Compiles (netlist_of design.now) builder.new edge.new parts) }
{
    add_wires(&design.wires, operands, builder)?;
    let divisors = divisors_of(alloc, &design.wires, operands)?;
    let shown = add_outputs(alloc, &design.assigns, operands, builder)?;
    add_always(&design.always, operands, builder, edge)?;
    Ok(Parts { divisors, shown })
}

/// Compiles a design into flat steps.
pub fn compile(alloc: Global, design: Design) -> Result<Start, AllocError>
    requires { IsTyped (netlist_of design) }
    ensures design { IfOk result (λ s. s.compiled.design ≡ design) }
    ensures stored { IfOk result (λ s. stored_of s.compiled s.slots.items s.contents.items ≡ first_stored (netlist_of design)) }
    ensures ready { IfOk result (λ s. IsReady s.compiled s.slots.items s.contents.items (length s.next.items)) }
{
    let beginning = begin(alloc, &design.declared)?;
    let Beginning {
        mut operands,
        mut builder,
        mut edge,
        numbers,
        contents,
    } = beginning;
    let parts = add_parts(alloc, &design, &mut operands, &mut builder, &mut edge)?;
    let (mut steps, constants) = builder.finish();
    reorder(alloc, &mut steps, constants.len())?;
    let groups = groups_of(alloc, &steps)?;
    let mut slots = constants_of(alloc, &constants)?;
    write_at(PORT_COUNT, &numbers, &mut slots);
    let next = vec![in alloc; 0; edge.next.len()]?;
    let compiled = CompiledDesign {
        design,
        steps,
        groups,
        divisors: parts.divisors,
        shown: parts.shown,
        next: edge.next,
        stores: edge.stores,
    };
    Ok(Start {
        compiled,
        slots,
        contents,
        next,
    })
}
