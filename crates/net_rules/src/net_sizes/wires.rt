//! How many bits the words of wires have, where those of registers are known.

ghost use Rattle.std.specs.Prelude.{◌≡◌, IfOk, map};
ghost use Rattle.net_core.specs.declared.tree.Net.{Net};
ghost use Rattle.net_core.specs.View.{right_of, wire_of};
ghost use Rattle.net_core.specs.Value.{Env, right_value};
ghost use Rattle.net_rules.specs.NetSizes.Fitting.{AreFitting, Fits, sizes_of};
ghost use Rattle.net_rules.specs.NetSizes.Keeping.{WiresFit};

use crate::net_sizes::expression::expr_size;
use crate::net_sizes::sizes::Sizes;
use net_core::design::Wire;
use net_core::tree::{Net, Right};
use std::alloc::{AllocError, Global};

/// How many bits the word of a right side has, which then fits them, where nets hold words of their sizes. 0 where it is not known.
pub fn right_size(sizes: &Sizes, right: &Right<Net>) -> u8
    ensures { (v : Env Net) → AreFitting (sizes_of sizes.now) v → Fits result (right_value v (right_of right.now)) }
{
    match right {
        Right::Plain(e) => expr_size(sizes, e),
        Right::Quotient(..) | Right::Remainder(..) => 0,
    }
}

/// These sizes of registers, and those of wires that follow.
pub(crate) fn with_wires(
    alloc: Global,
    registers: Vec<u8>,
    wires: &[Wire],
) -> Result<Sizes, AllocError>
    ensures registers { IfOk result (λ sizes. sizes.registers ≡ registers) }
    ensures wires { IfOk result (λ sizes. WiresFit (sizes_of sizes) (map wire_of wires.now)) }
{
    let mut sizes = Sizes {
        registers,
        wires: Vec::new(alloc),
    };
    for wire in wires {
        let size = right_size(&sizes, &wire.right);
        sizes.wires.push(size)?;
    }
    Ok(sizes)
}
