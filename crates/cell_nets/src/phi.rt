//! Choices among any number of operands: a wire for each pair where they become too many for an expression.

ghost use Rattle.std.specs.Prelude.{ℕ, All, IfOk};
ghost use Rattle.cell_core.specs.xdp_machine.State.{PacketIn};
ghost use Rattle.cell_core.specs.declared.operator.Operator.TheVariants as operator;
ghost use Rattle.cell_nets.specs.Operands.{IsOperand, IsWide};
ghost use Rattle.cell_nets.specs.Parts.{worth};
ghost use Rattle.cell_nets.specs.Wires.{wires_of, always, Gives};

use crate::choosing::select;
use crate::listing::{MOST_OPERANDS, last_value, phi};
use crate::operand::Operand;
use crate::wires::add_wire;
use block_core::block::BlockWire;
use block_core::name::Name;
use std::alloc::{AllocError, Global};

/// Of operands in pairs, the second of the first pair whose first is not 0, or else of the last; 0 in place of one that is missing.
/// This is one wire for at most `MOST_OPERANDS` operands, and one for each pair of more.
pub fn phi_wires<P: Copy>(
    alloc: Global,
    wires: &mut Vec<BlockWire<Name<P>>>,
    part: P,
    args: &[Operand<Name<P>>],
    width: u8,
) -> Result<Operand<Name<P>>, AllocError>
    requires operands { All IsOperand args.now }
    requires width { IsWide width }
    ensures { (packet : PacketIn) → IfOk result (Gives part (wires_of wires.old.items) (wires_of wires.new.items) args.now always (worth packet operator.Phi args.now width) width) }
{
    if args.len() <= MOST_OPERANDS {
        let e = phi(alloc, args, width)?;
        let out = add_wire(wires, part, width, e)?;
        return Ok(out);
    }
    let mut at = args.len().saturating_sub(1) / 2 * 2;
    let last = last_value(alloc, args, at, width)?;
    let mut chosen = add_wire(wires, part, width, last)?;
    while at >= 2 {
        at -= 2;
        let e = select(alloc, args[at], args[at + 1], chosen, width)?;
        chosen = add_wire(wires, part, width, e)?;
    }
    Ok(chosen)
}
