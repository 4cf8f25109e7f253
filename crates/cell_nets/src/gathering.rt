//! Whether one of any number of operands is not 0: a wire where they become too many for an expression.

ghost use Rattle.std.specs.Prelude.{ℕ, [], ◌∷◌, ◌≡◌, ◌<◌, ◌≤◌, All, length, IfOk};
ghost use Rattle.cell_core.specs.xdp_machine.State.{PacketIn};
ghost use Rattle.cell_core.specs.declared.operator.Operator.TheVariants as operator;
ghost use Rattle.cell_nets.specs.declared.listing.TheConstants.{MOST_OPERANDS};
ghost use Rattle.cell_nets.specs.Gathering.{IsGathered};
ghost use Rattle.cell_nets.specs.Operands.{IsOperand, IsWide};
ghost use Rattle.cell_nets.specs.Parts.{worth};
ghost use Rattle.cell_nets.specs.Wires.{wires_of, always, Gives};

use crate::listing::{MOST_OPERANDS, any};
use crate::operand::Operand;
use crate::wires::add_wire;
use block_core::block::BlockWire;
use block_core::name::Name;
use std::alloc::{AllocError, Global};

// Operands as they are, or one wire for all of them where there are as many as an expression has.
fn gathered<P: Copy>(
    alloc: Global,
    wires: &mut Vec<BlockWire<Name<P>>>,
    part: P,
    args: Vec<Operand<Name<P>>>,
) -> Result<Vec<Operand<Name<P>>>, AllocError>
    requires operands { All IsOperand args.items }
    requires few { length args.items ≤ MOST_OPERANDS }
    ensures few { IfOk result (λ c. length c.items < MOST_OPERANDS) }
    ensures gathered { IfOk result (λ c. IsGathered part (wires_of wires.old.items) (wires_of wires.new.items) args.items c.items) }
{
    if args.len() < MOST_OPERANDS {
        return Ok(args);
    }
    let bit = any(alloc, &args, 1)?;
    let found = add_wire(wires, part, 1, bit)?;
    let mut one = Vec::new(alloc);
    one.push(found)?;
    Ok(one)
}

/// Whether one of some operands is not 0, as a wire: 1 or 0. There is a further wire for each 39 operands past the first 40.
pub fn any_wires<P: Copy>(
    alloc: Global,
    wires: &mut Vec<BlockWire<Name<P>>>,
    part: P,
    args: &[Operand<Name<P>>],
    width: u8,
) -> Result<Operand<Name<P>>, AllocError>
    requires operands { All IsOperand args.now }
    requires width { IsWide width }
    ensures { (packet : PacketIn) → IfOk result (Gives part (wires_of wires.old.items) (wires_of wires.new.items) args.now always (worth packet operator.Any args.now width) width) }
{
    let mut left = Vec::new(alloc);
    for a in args {
        left = gathered(alloc, wires, part, left)?;
        left.push(*a)?;
    }
    let bits = any(alloc, &left, width)?;
    let out = add_wire(wires, part, width, bits)?;
    Ok(out)
}
