//! The sections of a design, each from the blocks of its parts in their order.

ghost use Rattle.std.specs.Prelude.{◌≡◌, ◌∷◌, ◌++◌, IfOk, OnOk, map};
ghost use Rattle.net_core.specs.declared.design.Declared.TheVariants as declared;
ghost use Rattle.net_core.specs.View.{wire_of, assign_of, statement_of};
ghost use Rattle.block_core.specs.Blocks.{gather};
ghost use Rattle.block_core.specs.Link.{declare_memory, declare_register, link_wires, link_output};
ghost use Rattle.block_core.specs.View.{block_of, block_wire_of, output_of, resolve_in, linked_statement};
ghost use Rattle.block_core.specs.Range.{wires_in_range, assigns_in_range, statement_in_range, Tells};
ghost use Rattle.std.specs.List.{list_all};

use crate::block::{BlockMemory, BlockWire, Output, Placed};
use crate::error::LinkError;
use crate::name::{Name, Part};
use crate::starts::{Starts, start};
use crate::trees::{link_expr, link_right, link_stmt};
use net_core::design::{Assign, Declared, Wire};
use net_core::tree::{Net, Stmt, Word};
use std::alloc::{AllocError, Global};

// Adds the registers of a block.
#[tactic(auto, using(crate::proofs::Loops::copied, crate::proofs::Loops::copied_end))]
fn add_registers(all: &mut Vec<Declared>, registers: &[Word]) -> Result<(), AllocError>
    ensures { OnOk result (all.new.items ≡ all.old.items ++ map declare_register registers.now) }
{
    for first in registers {
        all.push(Declared::Register(*first))?;
    }
    Ok(())
}

// Adds the memories of a block, which the first integer fills.
#[tactic(auto, using(crate::proofs::Loops::copied, crate::proofs::Loops::copied_end))]
fn add_memories(all: &mut Vec<Declared>, memories: &[BlockMemory]) -> Result<(), AllocError>
    ensures { OnOk result (all.new.items ≡ all.old.items ++ map declare_memory memories.now) }
{
    for memory in memories {
        all.push(Declared::Memory {
            index: memory.index,
            first: memory.first,
            integer: 0,
        })?;
    }
    Ok(())
}

/// An integer, and the registers of all parts.
#[tactic(auto, using(crate::proofs::Loops::gather_more, crate::proofs::Loops::gather_end))]
pub(crate) fn all_registers<P: Part>(
    alloc: Global,
    parts: &[Placed<P>],
) -> Result<Vec<Declared>, AllocError>
    ensures { IfOk result (λ r. r.items ≡ declared.Integer ∷ gather (λ m. map declare_register (block_of m.block).registers) parts.now) }
{
    let mut all = vec![in alloc; Declared::Integer]?;
    for placed in parts {
        add_registers(&mut all, &placed.block.registers)?;
    }
    Ok(all)
}

/// Adds the memories of all parts.
#[tactic(auto, using(crate::proofs::Loops::gather_more, crate::proofs::Loops::gather_end))]
pub(crate) fn all_memories<P: Part>(
    all: &mut Vec<Declared>,
    parts: &[Placed<P>],
) -> Result<(), AllocError>
    ensures { OnOk result (all.new.items ≡ all.old.items ++ gather (λ m. map declare_memory (block_of m.block).memories) parts.now) }
{
    for placed in parts {
        add_memories(all, &placed.block.memories)?;
    }
    Ok(())
}

// Adds the wires of a block.
fn add_wires<P: Part>(
    alloc: Global,
    all: &mut Vec<Wire>,
    wires: &[BlockWire<Name<P>>],
    starts: &Starts,
) -> Result<(), LinkError>
    ensures linked { OnOk result (map wire_of all.new.items ≡ map wire_of all.old.items ++ link_wires (resolve_in P.place starts.now) (map block_wire_of wires.now)) }
    ensures range { Tells result (wires_in_range (link_wires (resolve_in P.place starts.now) (map block_wire_of wires.now))) }
{
    for wire in wires {
        let right = link_right(alloc, &wire.right, starts)?;
        all.push(Wire {
            width: wire.width,
            right,
        })?;
    }
    Ok(())
}

/// The wires of all parts.
#[tactic(auto, using(crate::proofs::Loops::gather_more, crate::proofs::Loops::gather_end))]
pub(crate) fn all_wires<P: Part>(
    alloc: Global,
    parts: &[Placed<P>],
    starts: &Starts,
) -> Result<Vec<Wire>, LinkError>
    ensures linked { IfOk result (λ r. map wire_of r.items ≡ gather (λ m. link_wires (resolve_in P.place starts.now) (block_of m.block).wires) parts.now) }
    ensures range { Tells result (wires_in_range (gather (λ m. link_wires (resolve_in P.place starts.now) (block_of m.block).wires) parts.now)) }
{
    let mut all = Vec::new(alloc);
    for placed in parts {
        add_wires(alloc, &mut all, &placed.block.wires, starts)?;
    }
    Ok(all)
}

/// What the outputs show.
pub(crate) fn all_assigns<P: Part>(
    alloc: Global,
    outputs: &[Output<Name<P>>],
    starts: &Starts,
) -> Result<Vec<Assign>, LinkError>
    ensures linked { IfOk result (λ r. map assign_of r.items ≡ map (link_output (resolve_in P.place starts.now)) (map output_of outputs.now)) }
    ensures range { Tells result (assigns_in_range (map (link_output (resolve_in P.place starts.now)) (map output_of outputs.now))) }
{
    let mut all = Vec::new(alloc);
    for output in outputs {
        let value = link_expr(alloc, &output.value, starts)?;
        all.push(Assign {
            port: output.port,
            value,
        })?;
    }
    Ok(all)
}

// The statement of a part's always block.
fn statement<P: Part>(
    alloc: Global,
    placed: &Placed<P>,
    starts: &Starts,
) -> Result<Stmt<Net>, LinkError>
    ensures linked { IfOk result (λ r. statement_of r ≡ linked_statement P.place starts.now placed.now) }
    ensures range { Tells result (statement_in_range (linked_statement P.place starts.now placed.now)) }
{
    let registers = start(&starts.registers, placed.part);
    let memories = start(&starts.memories, placed.part);
    link_stmt(alloc, &placed.block.statement, starts, registers, memories)
}

/// The statements of all parts.
pub(crate) fn all_statements<P: Part>(
    alloc: Global,
    parts: &[Placed<P>],
    starts: &Starts,
) -> Result<Vec<Stmt<Net>>, LinkError>
    ensures linked { IfOk result (λ r. map statement_of r.items ≡ map (linked_statement P.place starts.now) parts.now) }
    ensures range { Tells result (list_all statement_in_range (map (linked_statement P.place starts.now) parts.now)) }
{
    let mut all = Vec::new(alloc);
    for placed in parts {
        all.push(statement(alloc, placed, starts)?)?;
    }
    Ok(all)
}
