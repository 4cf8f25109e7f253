//! Comparisons.

ghost use Rattle.std.specs.Prelude.{ℕ, List, [], ◌∷◌, Some, ◌≡◌, ◌+◌, ◌^◌, ◌<◌, ◌≤◌, IfOk};
ghost use Rattle.net_core.specs.Value.{Env};
ghost use Rattle.net_core.specs.View.{tree_of};
ghost use Rattle.cell_core.specs.xdp_machine.State.{PacketIn};
ghost use Rattle.cell_core.specs.declared.operator.Operator.{Operator};
ghost use Rattle.cell_nets.specs.Narrow.{test_op};
ghost use Rattle.cell_nets.specs.Operands.{IsOperand, IsAvailable, IsFit, IsWide, number_in};
ghost use Rattle.cell_nets.specs.Parts.{IsPart, Computes, worth};

use crate::operand::Operand;
use crate::slice::{beside, slice};
use net_core::build::{binary, constant};
use net_core::tree::{Expr, Op};
use std::alloc::{AllocError, Global};

/// How many bits are enough for an operand.
pub fn span<N: Copy>(a: Operand<N>) -> u8
    requires { IsOperand a }
    ensures wide { IsWide result }
    ensures enough { (v : Env N) → IsFit v a → number_in v a < 2 ^ result }
{
    match a {
        Operand::Net(_, width) => width,
        Operand::Part(_, _, _, width) => width,
        Operand::Known(n) => {
            if n < 2 {
                1
            } else if n < 256 {
                8
            } else if n < 65536 {
                16
            } else {
                64
            }
        }
    }
}

/// How many bits are enough for both of two operands.
fn sides<N: Copy>(a: Operand<N>, b: Operand<N>) -> u8
    requires left { IsOperand a }
    requires right { IsOperand b }
    ensures wide { IsWide result }
    ensures left { (v : Env N) → IsFit v a → number_in v a < 2 ^ result }
    ensures right { (v : Env N) → IsFit v b → number_in v b < 2 ^ result }
{
    let (first, second) = (span(a), span(b));
    if first < second { second } else { first }
}

/// An expression with zeros before it.
pub fn extend<N: Copy>(
    alloc: Global,
    e: Expr<N>,
    from: u8,
    width: u8,
) -> Result<Expr<N>, AllocError>
    requires some { 0 < from }
    requires more { from ≤ width }
    requires most { width ≤ 64 }
    ensures { (ins : List (Operand N)) (d : ℕ) (f : Env N → ℕ) → IsPart ins d from f (tree_of e) → IfOk result (λ r. IsPart ins (2 + d) width f (tree_of r)) }
{
    if from == width {
        return Ok(e);
    }
    let zeros = constant(width - from, 0);
    let whole = beside(alloc, zeros, e)?;
    Ok(whole)
}

/// Whether a comparison of two operands holds: 1 or 0.
pub fn compare<N: Copy>(
    alloc: Global,
    op: Op,
    a: Operand<N>,
    b: Operand<N>,
    width: u8,
) -> Result<Expr<N>, AllocError>
    requires left { IsOperand a }
    requires right { IsOperand b }
    requires width { IsWide width }
    ensures { (ins : List (Operand N)) (packet : PacketIn) (o : Operator) → test_op o ≡ Some op → IsAvailable ins a → IsAvailable ins b → IfOk result (λ e. Computes ins width (worth packet o (a ∷ b ∷ []) width) (tree_of e)) }
{
    let common = sides(a, b);
    let left = slice(alloc, a, 0, common)?;
    let right = slice(alloc, b, 0, common)?;
    let bit = binary(alloc, op, left, right)?;
    let e = extend(alloc, bit, 1, width)?;
    Ok(e)
}
