//! Single steps of nets.

ghost use Rattle.std.specs.Prelude.{[], ◌∷◌, ◌||◌, IfOk};
ghost use Rattle.overlay_net.specs.cell_core.Cells.{bit, on};
ghost use Rattle.overlay_net.specs.cell_nets.Operands.{IsOperand, number_in};
ghost use Rattle.overlay_net.specs.cell_nets.Wires.{wires_of, always, Gives};

use block_core::block::BlockWire;
use block_core::name::Name;
use overlay_net::cell_nets::operand::Operand;
use overlay_net::cell_nets::step_nets::{choose, truth};
use std::alloc::{AllocError, Global};

/// Whether one of two operands is not 0.
pub fn either<P: Copy>(
    alloc: Global,
    wires: &mut Vec<BlockWire<Name<P>>>,
    part: P,
    a: Operand<Name<P>>,
    b: Operand<Name<P>>,
) -> Result<Operand<Name<P>>, AllocError>
    requires left { IsOperand a }
    requires right { IsOperand b }
    ensures { IfOk result (Gives part (wires_of wires.old.items) (wires_of wires.new.items) (a ∷ b ∷ []) always (λ v. bit (on (number_in v a) || on (number_in v b))) 1) }
{
    let second = truth(alloc, wires, part, b)?;
    let out = choose(alloc, wires, part, a, Operand::Known(1), second, 1)?;
    Ok(out)
}
