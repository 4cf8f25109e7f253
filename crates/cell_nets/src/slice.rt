//! Bits of an operand.

ghost use Rattle.std.specs.Prelude.{ℕ, List, Contains, ◌≡◌, ◌+◌, ◌<◌, ◌≤◌, IfOk};
ghost use Rattle.net_core.specs.Nets.{TConcatenation, TMore, TLast};
ghost use Rattle.net_core.specs.View.{tree_of};
ghost use Rattle.cell_core.specs.Cells.{bits_from};
ghost use Rattle.cell_nets.specs.Operands.{IsOperand, IsAvailable, IsWide, IsWithin, HasNet, number_in};
ghost use Rattle.cell_nets.specs.Parts.{IsSlice, part_tree};

use crate::operand::Operand;
use net_core::build::constant;
use net_core::tree::{Expr, Parts};
use std::alloc::{AllocError, Global};

/// One expression above another.
pub fn beside<N: Copy>(alloc: Global, a: Expr<N>, b: Expr<N>) -> Result<Expr<N>, AllocError>
    ensures { IfOk result (λ e. tree_of e ≡ TConcatenation (TMore (tree_of a) (TLast (tree_of b)))) }
{
    let b = Box::new(alloc, Parts::Last(b))?;
    let parts = Box::new(alloc, Parts::More(a, b))?;
    Ok(Expr::Concatenation(parts))
}

/// Bits of a net of `of` bits.
pub fn inside<N: Copy>(net: N, of: u8, from: u8, width: u8) -> Expr<N>
    requires { IsWithin of from width }
    ensures { tree_of result ≡ part_tree net of from width }
{
    if width == of {
        Expr::Read(net)
    } else if width == 1 {
        Expr::Bit(net, from)
    } else {
        Expr::PartSelect(net, from + width - 1, from)
    }
}

// So many bits, from one on, of those that a net of `of` bits has from `at` on: zeros past these.
fn section<N: Copy>(
    alloc: Global,
    net: N,
    of: u8,
    at: u8,
    bits: u8,
    from: u8,
    width: u8,
) -> Result<Expr<N>, AllocError>
    requires part { IsWithin of at bits }
    requires from { from ≤ 63 }
    requires width { IsWide width }
    ensures { (ins : List (Operand N)) → HasNet ins net of → IfOk result (λ e. IsSlice ins 2 width (λ v. bits_from (bits_from (v.net net).value at bits) from width) (tree_of e)) }
{
    if from >= bits {
        return Ok(constant(width, 0));
    }
    if from + width <= bits {
        return Ok(inside(net, of, at + from, width));
    }
    let zeros = constant(width - (bits - from), 0);
    let there = inside(net, of, at + from, bits - from);
    let whole = beside(alloc, zeros, there)?;
    Ok(whole)
}

/// So many bits of an operand, from one on: zeros past its width.
pub fn slice<N: Copy>(
    alloc: Global,
    a: Operand<N>,
    from: u8,
    width: u8,
) -> Result<Expr<N>, AllocError>
    requires operand { IsOperand a }
    requires from { from ≤ 63 }
    requires width { IsWide width }
    ensures { (ins : List (Operand N)) → IsAvailable ins a → IfOk result (λ e. IsSlice ins 2 width (λ v. bits_from (number_in v a) from width) (tree_of e)) }
{
    match a {
        Operand::Known(n) => Ok(constant(width, low(n >> from, width))),
        Operand::Net(net, of) => {
            let e = section(alloc, net, of, 0, of, from, width)?;
            Ok(e)
        }
        Operand::Part(net, of, at, bits) => {
            let e = section(alloc, net, of, at, bits, from, width)?;
            Ok(e)
        }
    }
}

// So many low bits of a number.
fn low(n: u64, width: u8) -> u64
    requires { width ≤ 64 }
    ensures { result ≡ bits_from n 0 width }
{
    if width < 64 { n % (1 << width) } else { n }
}
