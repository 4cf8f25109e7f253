//! Operators that are computed on as many bits as their cells have.

ghost use Rattle.std.specs.Prelude.{ℕ, List, [], ◌∷◌, Some, ◌≡◌, IfOk};
ghost use Rattle.net_core.specs.View.{tree_of};
ghost use Rattle.cell_core.specs.xdp_machine.State.{PacketIn};
ghost use Rattle.cell_core.specs.declared.operator.Operator.{Operator};
ghost use Rattle.cell_nets.specs.Computing.{makes_product};
ghost use Rattle.cell_nets.specs.Narrow.{narrow_op};
ghost use Rattle.cell_nets.specs.Operands.{IsOperand, IsAvailable, IsWide};
ghost use Rattle.cell_nets.specs.Parts.{ComputesBy, worth};

use crate::operand::Operand;
use crate::slice::slice;
use net_core::build::binary;
use net_core::tree::{Expr, Op};
use std::alloc::{AllocError, Global};

/// An operation between the low bits of two operands.
pub fn narrow<N: Copy>(
    alloc: Global,
    op: Op,
    a: Operand<N>,
    b: Operand<N>,
    width: u8,
) -> Result<Expr<N>, AllocError>
    requires left { IsOperand a }
    requires right { IsOperand b }
    requires width { IsWide width }
    ensures { (ins : List (Operand N)) (packet : PacketIn) (o : Operator) → narrow_op o ≡ Some op → IsAvailable ins a → IsAvailable ins b → IfOk result (λ e. ComputesBy (makes_product o) ins width (worth packet o (a ∷ b ∷ []) width) (tree_of e)) }
{
    let left = slice(alloc, a, 0, width)?;
    let right = slice(alloc, b, 0, width)?;
    let e = binary(alloc, op, left, right)?;
    Ok(e)
}
