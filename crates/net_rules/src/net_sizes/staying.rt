//! How many bits the registers of a design have in every clock.

ghost use Rattle.std.specs.Prelude.{◌≡◌, ℕ, IfOk, map};
ghost use Rattle.std.proofs.Common.{get_or};
ghost use Rattle.net_core.specs.declared.tree.Word.{Word};
ghost use Rattle.net_core.specs.View.{netlist_of};
ghost use Rattle.net_core.specs.Clock.{first_words};
ghost use Rattle.net_core.specs.Width as width;
ghost use Rattle.net_rules.specs.NetSizes.Fitting.{Fits};
ghost use Rattle.net_rules.specs.NetSizes.Staying.{StaySized};

use crate::net_sizes::keeping::edge_keeps;
use crate::net_sizes::wires::with_wires;
use net_core::design::{Declared, Design};
use net_core::width::const_width;
use std::alloc::{AllocError, Global};

/// How often sizes are corrected. What is not known at one end of a pipeline is not known at its other end after as many rounds as it
/// has stages, which are 256 at most.
const ROUNDS: u32 = 300;

// The width of each register, or 0 where its first word does not fit.
fn first_sizes(alloc: Global, declared: &[Declared]) -> Result<Vec<u8>, AllocError>
    ensures { IfOk result (λ sizes. sizes.items ≡ map width.const_width (first_words declared.now)) }
{
    let mut sizes = Vec::new(alloc);
    for item in declared {
        if let Declared::Register(word) = item {
            sizes.push(const_width(*word))?;
        }
    }
    Ok(sizes)
}

// Forgets the sizes of marked registers.
fn clear(sizes: &mut [u8], wrong: &[bool])
    ensures { (k : ℕ) (w : Word) → Fits (get_or sizes.old k 0) w → Fits (get_or sizes.new k 0) w }
{
    for k in 0..sizes.len() {
        if wrong.get(k).copied().unwrap_or(false) {
            sizes[k] = 0;
        }
    }
}

/// How many bits each register of a design has in every clock, whatever stands at the ports: 0 where that is not known.
pub fn register_sizes(alloc: Global, design: &Design) -> Result<Vec<u8>, AllocError>
    ensures { IfOk result (λ sizes. StaySized (netlist_of design.now) sizes.items) }
{
    let mut registers = first_sizes(alloc, &design.declared)?;
    for _ in 0..ROUNDS {
        let sizes = with_wires(alloc, registers, &design.wires)?;
        let mut wrong = vec![in alloc; false; sizes.registers.len()]?;
        if edge_keeps(&sizes, &mut wrong, &design.always) {
            return Ok(sizes.registers);
        }
        registers = sizes.registers;
        clear(&mut registers, &wrong);
    }
    Ok(Vec::new(alloc))
}
