//! Designs that texts spell.

ghost use Rattle.std.specs.Prelude.{IfOk};
ghost use Rattle.net_core.specs.View.{netlist_of};
ghost use Rattle.design_rules.specs.Formed.{IsWellFormed};

use anyhow::Result;
use net_core::design::Design;
use std::alloc::Global;
use std::str;
use verilog_read::read_text;
use verilog_write::write_text;

/// The design that a text spells.
pub(crate) fn design_of(alloc: Global, text: &[u8]) -> Result<Design>
    ensures { IfOk result (λ d. IsWellFormed (netlist_of d)) }
{
    Ok(read_text(alloc, text)?)
}

// What is written of the design that a text spells.
fn written(alloc: Global, text: &[u8]) -> Result<Vec<u8>> {
    let design = design_of(alloc, text)?;
    Ok(write_text(alloc, &design)?)
}

/// Prints whether what is written of a design that was read is this text, and whether that is written so again.
pub(crate) fn show_written(
    rt: &impl Print,
    alloc: Global,
    text: &[u8],
    name: &str,
    wanted: &[u8],
) -> Result<()> {
    let once = written(alloc, text)?;
    let again = written(alloc, &once)?;
    if once.as_slice() == wanted && again.as_slice() == wanted {
        println!(rt; "written as {name}, and so again")?;
        return Ok(());
    }
    println!(rt; "written otherwise")?;
    for line in str::from_utf8(&again)?.lines() {
        println!(rt; "| {line}")?;
    }
    Ok(())
}
