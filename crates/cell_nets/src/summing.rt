//! Operands above one another where these are too many for an expression, or have more bits than they are given.

ghost use Rattle.std.specs.Prelude.{ℕ, ◌≤◌, All, IfOk};
ghost use Rattle.cell_core.specs.xdp_machine.State.{PacketIn};
ghost use Rattle.cell_core.specs.declared.operator.Operator.TheVariants as operator;
ghost use Rattle.cell_nets.specs.Operands.{IsOperand, IsWide};
ghost use Rattle.cell_nets.specs.Parts.{worth};
ghost use Rattle.cell_nets.specs.Wires.{wires_of, always, Gives};

use crate::narrow::narrow;
use crate::operand::Operand;
use crate::shifting::shift_left;
use crate::wires::{add_wire, cut};
use block_core::block::BlockWire;
use block_core::name::Name;
use net_core::tree::Op;
use std::alloc::{AllocError, Global};

/// Operands above one another, the first the highest, each so many bits above the next, whatever bits they have: two wires for each of
/// them, its sum with those above it.
pub fn join_wires<P: Copy>(
    alloc: Global,
    wires: &mut Vec<BlockWire<Name<P>>>,
    part: P,
    args: &[Operand<Name<P>>],
    bits: u8,
    width: u8,
) -> Result<Operand<Name<P>>, AllocError>
    requires operands { All IsOperand args.now }
    requires bits { bits ≤ 63 }
    requires width { IsWide width }
    ensures { (packet : PacketIn) → IfOk result (Gives part (wires_of wires.old.items) (wires_of wires.new.items) args.now always (worth packet (operator.Join bits) args.now width) width) }
{
    let mut higher = Operand::Known(0);
    for a in args {
        let shifted = shift_left(alloc, higher, Operand::Known(bits as u64), 64)?;
        let moved = add_wire(wires, part, 64, shifted)?;
        let sum = narrow(alloc, Op::Add, moved, *a, 64)?;
        higher = add_wire(wires, part, 64, sum)?;
    }
    let out = cut(alloc, wires, part, higher, 0, width)?;
    Ok(out)
}
