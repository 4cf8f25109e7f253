//! The design that is made of blocks.

ghost use Rattle.std.specs.Prelude.{◌≡◌, ◌++◌, IfOk, OnOk, IsErr, IsErrOf, IsTrue, map, string_bytes};
ghost use Rattle.std.specs.Fmt.{decimal};
ghost use Rattle.net_core.specs.View.{netlist_of};
ghost use Rattle.block_core.specs.Blocks.{Whole};
ghost use Rattle.block_core.specs.Link.{numbered, net_names, numbered_names, link};
ghost use Rattle.block_core.specs.Range.{design_in_range};
ghost use Rattle.block_core.specs.View.{output_of, Makes};

use crate::block::{Output, Placed};
use crate::error::LinkError;
use crate::name::{Name, Part};
use crate::sections::{all_assigns, all_memories, all_registers, all_statements, all_wires};
use crate::starts::all_starts;
use net_core::design::{Design, Port};
use std::alloc::{AllocError, Global};

// A letter and a number.
fn numbered_name(alloc: Global, letter: &str, number: usize) -> Result<String, AllocError>
    ensures { IfOk result (λ name. string_bytes name ≡ letter.now ++ decimal number) }
{
    format!(in alloc; "{letter}{number}")
}

// Adds names that are a letter and a number, from 0 on.
#[tactic(auto, using(crate::proofs::Loops::numbered_end))]
fn add_numbered(
    alloc: Global,
    names: &mut Vec<String>,
    letter: &str,
    count: usize,
) -> Result<(), AllocError>
    ensures { OnOk result (map string_bytes names.new.items ≡ map string_bytes names.old.items ++ numbered letter.now 0 count) }
{
    for k in 0..count {
        names.push(numbered_name(alloc, letter, k)?)?;
    }
    Ok(())
}

// Adds the names of the nets that stand after ports.
fn add_names(
    alloc: Global,
    names: &mut Vec<String>,
    registers: usize,
    memories: usize,
    wires: usize,
) -> Result<(), AllocError>
    ensures { OnOk result (map string_bytes names.new.items ≡ map string_bytes names.old.items ++ net_names registers memories wires) }
{
    names.push(String::from_str(alloc, "i_0")?)?;
    add_numbered(alloc, names, "r_", registers)?;
    add_numbered(alloc, names, "m_", memories)?;
    add_numbered(alloc, names, "w_", wires)
}

/// The design of these parts, each at its place, after these ports.
///
/// Its registers are named `r_0`, `r_1` and so on, part after part, its memories `m_0` and so on, its wires `w_0` and so
/// on, and the integer that fills its memories `i_0`. Each part has one always block. There are too many nets exactly where
/// a number does not fit 32 bits.
pub fn link<P: Part>(
    alloc: Global,
    ports: Vec<Port>,
    port_names: Vec<String>,
    parts: &[Placed<P>],
    outputs: &[Output<Name<P>>],
) -> Result<Design, LinkError>
    ensures linked { IfOk result (λ n. (d : Whole P) → Makes P.place parts.now d → netlist_of n ≡ link d (numbered_names d (map string_bytes port_names.items)) ports.items (map output_of outputs.now)) }
    ensures in_range { (d : Whole P) → Makes P.place parts.now d → IsTrue (design_in_range d (map output_of outputs.now)) → ¬ IsErrOf result LinkError.TooMany }
    ensures past { (d : Whole P) → Makes P.place parts.now d → ¬ IsTrue (design_in_range d (map output_of outputs.now)) → IsErr result }
{
    let starts = all_starts(alloc, parts)?;
    let mut declared = all_registers(alloc, parts)?;
    let registers = declared.len();
    all_memories(&mut declared, parts)?;
    let wires = all_wires(alloc, parts, &starts)?;
    let mut names = port_names;
    let memories = declared.len() - registers;
    add_names(alloc, &mut names, registers - 1, memories, wires.len())?;
    let assigns = all_assigns(alloc, outputs, &starts)?;
    let always = all_statements(alloc, parts, &starts)?;
    Ok(Design {
        names,
        ports,
        declared,
        wires,
        assigns,
        always,
    })
}
