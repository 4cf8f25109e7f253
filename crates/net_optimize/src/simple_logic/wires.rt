//! Wires whose right sides have fewer operators.

ghost use Rattle.std.specs.Prelude.{IfOk, map};
ghost use Rattle.net_core.specs.declared.tree.Net.{Net};
ghost use Rattle.net_core.specs.View.{wire_of};
ghost use Rattle.net_core.specs.Value.{Env};
ghost use Rattle.net_rules.specs.NetSizes.Fitting.{AreFitting};
ghost use Rattle.design_rules.specs.SolvedWires.Solving.{Solves};
ghost use Rattle.register_rules.specs.NarrowRegisters.Narrow.{Each};
ghost use Rattle.net_optimize.specs.SimpleLogic.Simple.{Hold, IsSameWire, registers_alone};

use crate::simple_logic::facts::{Facts, seen_through, simple_right};
use net_core::design::Wire;
use net_rules::net_sizes::{Sizes, right_size};
use std::alloc::{AllocError, Global};

/// Wires, and what is known of all nets.
#[derive(Drop)]
pub(crate) struct Simple {
    pub(crate) facts: Facts,
    pub(crate) wires: Vec<Wire>,
}

/// Wires of the same values, where registers have these sizes.
pub(crate) fn simple_wires(
    alloc: Global,
    registers: Vec<u8>,
    wires: &[Wire],
) -> Result<Simple, AllocError>
    ensures same { IfOk result (λ s. (v : Env Net) → AreFitting (registers_alone registers.items) v → Solves v 0 (map wire_of wires.now) → Each (IsSameWire v) (map wire_of wires.now) (map wire_of s.wires.items)) }
    ensures hold { IfOk result (λ s. (v : Env Net) → AreFitting (registers_alone registers.items) v → Solves v 0 (map wire_of wires.now) → Hold s.facts v) }
{
    let mut facts = Facts {
        sizes: Sizes {
            registers,
            wires: Vec::new(alloc),
        },
        known: Vec::new(alloc),
    };
    let mut all = Vec::new(alloc);
    for wire in wires {
        let right = simple_right(alloc, &facts, &wire.right)?;
        let size = right_size(&facts.sizes, &wire.right);
        let fact = seen_through(alloc, &right)?;
        all.push(Wire {
            width: wire.width,
            right,
        })?;
        facts.sizes.wires.push(size)?;
        facts.known.push(fact)?;
    }
    Ok(Simple { facts, wires: all })
}
