//! Single steps of nets: an operand more after wires, by operands that stand for numbers.

ghost use Rattle.std.specs.Prelude.{ℕ, true, Some, [], ◌∷◌, ◌≡◌, ◌==◌, ◌+◌, ◌&&◌, ◌≤◌, not, nat_lt, nat_le, if◌then◌else◌, IfOk};
ghost use Rattle.cell_core.specs.Cells.{bit, on, bits_from};
ghost use Rattle.cell_nets.specs.Operands.{IsOperand, IsWide, number_in};
ghost use Rattle.cell_nets.specs.Wires.{wires_of, always, Gives};
ghost use Rattle.cell_nets.specs.StepNets.Folding.{IsSettled, IsTruth};

use crate::choosing;
use crate::comparing::{compare, span};
use crate::narrow::narrow;
use crate::operand::Operand;
use crate::wires::{add_wire, cut};
use block_core::block::BlockWire;
use block_core::name::Name;
use cell_core::value::bits_from;
use net_core::tree::Op;
use std::alloc::{AllocError, Global};

// A truth as a number, for which there is no wire.
fn fact<N: Copy>(holds: bool) -> Operand<N>
    ensures { result ≡ Operand.Known (bit holds) }
{
    Operand::Known(u64::from(holds))
}

fn is_zero<N: Copy>(a: Operand<N>) -> bool
    ensures { result ≡ true → a ≡ Operand.Known 0 }
{
    matches!(a, Operand::Known(0))
}

/// Whether an operand is not 0.
pub fn truth<P: Copy>(
    alloc: Global,
    wires: &mut Vec<BlockWire<Name<P>>>,
    part: P,
    a: Operand<Name<P>>,
) -> Result<Operand<Name<P>>, AllocError>
    requires { IsOperand a }
    ensures { IfOk result (Gives part (wires_of wires.old.items) (wires_of wires.new.items) (a ∷ []) always (λ v. bit (on (number_in v a))) 1) }
{
    if let Operand::Known(n) = a {
        return Ok(fact(n != 0));
    }
    if span(a) == 1 {
        let out = cut(alloc, wires, part, a, 0, 1)?;
        return Ok(out);
    }
    let e = choosing::truth(alloc, a)?;
    let out = add_wire(wires, part, 1, e)?;
    Ok(out)
}

// Of two operands the one that a choice between them gives, where it is known which, or does not matter.
fn settled<N: Copy>(c: Operand<N>, a: Operand<N>, b: Operand<N>, width: u8) -> Option<Operand<N>>
    requires { width ≤ 64 }
    ensures { (x : Operand N) → result ≡ Some x → IsSettled c a b width x }
{
    let bits = u32::from(width);
    match (c, a, b) {
        (Operand::Known(n), _, _) => Some(if n == 0 { b } else { a }),
        (_, Operand::Known(m), Operand::Known(n)) => {
            if bits_from(m, 0, bits) == bits_from(n, 0, bits) {
                Some(a)
            } else {
                None
            }
        }
        _ => None,
    }
}

// Whether a choice between two operands is the condition itself, as one bit.
fn is_truth<N: Copy>(a: Operand<N>, b: Operand<N>, width: u8) -> bool
    ensures { result ≡ true → IsTruth a b width }
{
    match (a, b) {
        (Operand::Known(m), Operand::Known(n)) => width == 1 && m % 2 == 1 && n % 2 == 0,
        _ => false,
    }
}

/// The second of three operands where the first is not 0, else the third, in so many bits.
pub fn choose<P: Copy>(
    alloc: Global,
    wires: &mut Vec<BlockWire<Name<P>>>,
    part: P,
    c: Operand<Name<P>>,
    a: Operand<Name<P>>,
    b: Operand<Name<P>>,
    width: u8,
) -> Result<Operand<Name<P>>, AllocError>
    requires condition { IsOperand c }
    requires left { IsOperand a }
    requires right { IsOperand b }
    requires width { IsWide width }
    ensures { IfOk result (Gives part (wires_of wires.old.items) (wires_of wires.new.items) (c ∷ a ∷ b ∷ []) always (λ v. bits_from (if on (number_in v c) then number_in v a else number_in v b) 0 width) width) }
{
    if let Some(x) = settled(c, a, b, width) {
        let out = cut(alloc, wires, part, x, 0, width)?;
        return Ok(out);
    }
    if is_truth(a, b, width) {
        let out = truth(alloc, wires, part, c)?;
        return Ok(out);
    }
    let e = choosing::select(alloc, c, a, b, width)?;
    let out = add_wire(wires, part, width, e)?;
    Ok(out)
}

/// Whether neither of two operands is 0.
pub fn both<P: Copy>(
    alloc: Global,
    wires: &mut Vec<BlockWire<Name<P>>>,
    part: P,
    a: Operand<Name<P>>,
    b: Operand<Name<P>>,
) -> Result<Operand<Name<P>>, AllocError>
    requires left { IsOperand a }
    requires right { IsOperand b }
    ensures { IfOk result (Gives part (wires_of wires.old.items) (wires_of wires.new.items) (a ∷ b ∷ []) always (λ v. bit (on (number_in v a) && on (number_in v b))) 1) }
{
    if is_zero(a) {
        return Ok(fact(false));
    }
    let second = truth(alloc, wires, part, b)?;
    let out = choose(alloc, wires, part, a, second, Operand::Known(0), 1)?;
    Ok(out)
}

/// Whether an operand is not 0 and another one is.
pub fn without<P: Copy>(
    alloc: Global,
    wires: &mut Vec<BlockWire<Name<P>>>,
    part: P,
    a: Operand<Name<P>>,
    b: Operand<Name<P>>,
) -> Result<Operand<Name<P>>, AllocError>
    requires left { IsOperand a }
    requires right { IsOperand b }
    ensures { IfOk result (Gives part (wires_of wires.old.items) (wires_of wires.new.items) (a ∷ b ∷ []) always (λ v. bit (on (number_in v a) && not (on (number_in v b)))) 1) }
{
    let first = truth(alloc, wires, part, a)?;
    let out = choose(alloc, wires, part, b, Operand::Known(0), first, 1)?;
    Ok(out)
}

/// Whether two operands are the same number.
pub fn equal<P: Copy>(
    alloc: Global,
    wires: &mut Vec<BlockWire<Name<P>>>,
    part: P,
    a: Operand<Name<P>>,
    b: Operand<Name<P>>,
) -> Result<Operand<Name<P>>, AllocError>
    requires left { IsOperand a }
    requires right { IsOperand b }
    ensures { IfOk result (Gives part (wires_of wires.old.items) (wires_of wires.new.items) (a ∷ b ∷ []) always (λ v. bit (number_in v a == number_in v b)) 1) }
{
    if let (Operand::Known(x), Operand::Known(y)) = (a, b) {
        return Ok(fact(x == y));
    }
    let e = compare(alloc, Op::Equal, a, b, 1)?;
    let out = add_wire(wires, part, 1, e)?;
    Ok(out)
}

/// Whether an operand is below another one.
pub fn below<P: Copy>(
    alloc: Global,
    wires: &mut Vec<BlockWire<Name<P>>>,
    part: P,
    a: Operand<Name<P>>,
    b: Operand<Name<P>>,
) -> Result<Operand<Name<P>>, AllocError>
    requires left { IsOperand a }
    requires right { IsOperand b }
    ensures { IfOk result (Gives part (wires_of wires.old.items) (wires_of wires.new.items) (a ∷ b ∷ []) always (λ v. bit (nat_lt (number_in v a) (number_in v b))) 1) }
{
    if let (Operand::Known(x), Operand::Known(y)) = (a, b) {
        return Ok(fact(x < y));
    }
    let e = compare(alloc, Op::Less, a, b, 1)?;
    let out = add_wire(wires, part, 1, e)?;
    Ok(out)
}

/// Whether an operand is not above another one.
pub fn at_most<P: Copy>(
    alloc: Global,
    wires: &mut Vec<BlockWire<Name<P>>>,
    part: P,
    a: Operand<Name<P>>,
    b: Operand<Name<P>>,
) -> Result<Operand<Name<P>>, AllocError>
    requires left { IsOperand a }
    requires right { IsOperand b }
    ensures { IfOk result (Gives part (wires_of wires.old.items) (wires_of wires.new.items) (a ∷ b ∷ []) always (λ v. bit (nat_le (number_in v a) (number_in v b))) 1) }
{
    if let (Operand::Known(x), Operand::Known(y)) = (a, b) {
        return Ok(fact(x <= y));
    }
    let e = compare(alloc, Op::LessEqual, a, b, 1)?;
    let out = add_wire(wires, part, 1, e)?;
    Ok(out)
}

/// The low bits of the sum of two operands.
pub fn sum<P: Copy>(
    alloc: Global,
    wires: &mut Vec<BlockWire<Name<P>>>,
    part: P,
    a: Operand<Name<P>>,
    b: Operand<Name<P>>,
    width: u8,
) -> Result<Operand<Name<P>>, AllocError>
    requires left { IsOperand a }
    requires right { IsOperand b }
    requires width { IsWide width }
    ensures { IfOk result (Gives part (wires_of wires.old.items) (wires_of wires.new.items) (a ∷ b ∷ []) always (λ v. bits_from (number_in v a + number_in v b) 0 width) width) }
{
    if is_zero(a) {
        let out = cut(alloc, wires, part, b, 0, width)?;
        return Ok(out);
    }
    if is_zero(b) {
        let out = cut(alloc, wires, part, a, 0, width)?;
        return Ok(out);
    }
    let e = narrow(alloc, Op::Add, a, b, width)?;
    let out = add_wire(wires, part, width, e)?;
    Ok(out)
}
