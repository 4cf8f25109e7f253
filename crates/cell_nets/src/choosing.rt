//! Bits and choices.

ghost use Rattle.std.specs.Prelude.{ℕ, List, [], ◌∷◌, ◌^◌, ◌<◌, IfOk};
ghost use Rattle.net_core.specs.Value.{Env};
ghost use Rattle.net_core.specs.View.{tree_of};
ghost use Rattle.cell_core.specs.xdp_machine.State.{PacketIn};
ghost use Rattle.cell_core.specs.declared.operator.Operator.{Operator};
ghost use Rattle.cell_core.specs.declared.operator.Operator.TheVariants as operator;
ghost use Rattle.cell_core.specs.Cells.{bit, on};
ghost use Rattle.cell_nets.specs.Operands.{IsOperand, IsAvailable, IsWide, AreFit, number_in};
ghost use Rattle.cell_nets.specs.Parts.{IsPart, IsSlice, Computes, worth};

use crate::operand::Operand;
use crate::slice::{inside, slice};
use net_core::build::{conditional, constant, unary};
use net_core::tree::{Expr, UnaryOp};
use std::alloc::{AllocError, Global};

// One bit: whether bits are not all 0.
fn any_bit<N: Copy>(alloc: Global, bits: Expr<N>, width: u8) -> Result<Expr<N>, AllocError>
    requires { IsWide width }
    ensures { (ins : List (Operand N)) (f : Env N → ℕ) → ((v : Env N) → AreFit v ins → f v < 2 ^ width) → IsSlice ins 1 width f (tree_of bits) → IfOk result (λ e. IsPart ins 2 1 (λ v. bit (on (f v))) (tree_of e)) }
{
    if width == 1 {
        return Ok(bits);
    }
    let any = unary(alloc, UnaryOp::ReduceOr, bits)?;
    Ok(any)
}

/// One bit: whether an operand is not 0.
pub fn truth<N: Copy>(alloc: Global, a: Operand<N>) -> Result<Expr<N>, AllocError>
    requires { IsOperand a }
    ensures { (ins : List (Operand N)) → IsAvailable ins a → IfOk result (λ e. IsPart ins 2 1 (λ v. bit (on (number_in v a))) (tree_of e)) }
{
    match a {
        Operand::Known(n) => Ok(constant(1, if n == 0 { 0 } else { 1 })),
        Operand::Net(net, width) => {
            let e = any_bit(alloc, Expr::Read(net), width)?;
            Ok(e)
        }
        Operand::Part(net, of, from, width) => {
            let e = any_bit(alloc, inside(net, of, from, width), width)?;
            Ok(e)
        }
    }
}

/// The second of three operands where the first is not 0, else the third.
pub fn select<N: Copy>(
    alloc: Global,
    c: Operand<N>,
    a: Operand<N>,
    b: Operand<N>,
    width: u8,
) -> Result<Expr<N>, AllocError>
    requires condition { IsOperand c }
    requires left { IsOperand a }
    requires right { IsOperand b }
    requires width { IsWide width }
    ensures { (ins : List (Operand N)) (packet : PacketIn) → IsAvailable ins c → IsAvailable ins a → IsAvailable ins b → IfOk result (λ e. Computes ins width (worth packet operator.Select (c ∷ a ∷ b ∷ []) width) (tree_of e)) }
{
    let condition = truth(alloc, c)?;
    let left = slice(alloc, a, 0, width)?;
    let right = slice(alloc, b, 0, width)?;
    let e = conditional(alloc, condition, left, right)?;
    Ok(e)
}

/// An operand, but 1 where it is 0.
pub fn non_zero<N: Copy>(alloc: Global, a: Operand<N>, width: u8) -> Result<Expr<N>, AllocError>
    requires operand { IsOperand a }
    requires width { IsWide width }
    ensures { (ins : List (Operand N)) (packet : PacketIn) → IsAvailable ins a → IfOk result (λ e. Computes ins width (worth packet operator.NonZero (a ∷ []) width) (tree_of e)) }
{
    let e = select(alloc, a, a, Operand::Known(1), width)?;
    Ok(e)
}

/// The other value of each bit.
pub fn invert<N: Copy>(alloc: Global, a: Operand<N>, width: u8) -> Result<Expr<N>, AllocError>
    requires operand { IsOperand a }
    requires width { IsWide width }
    ensures { (ins : List (Operand N)) (packet : PacketIn) → IsAvailable ins a → IfOk result (λ e. Computes ins width (worth packet operator.Not (a ∷ []) width) (tree_of e)) }
{
    let bits = slice(alloc, a, 0, width)?;
    let e = unary(alloc, UnaryOp::Not, bits)?;
    Ok(e)
}
