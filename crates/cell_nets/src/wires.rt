//! Wires of a part, one after another.

ghost use Rattle.std.specs.Prelude.{ℕ, Bool, List, [], ◌∷◌, ◌++◌, Some, ◌≡◌, ◌^◌, ◌<◌, ◌≤◌, All, length, IfOk, OnOk};
ghost use Rattle.net_core.specs.Value.{Env};
ghost use Rattle.net_core.specs.View.{tree_of, right_of};
ghost use Rattle.block_core.specs.Blocks.{BlockWireTree};
ghost use Rattle.block_core.specs.declared.name.Name.{Name};
ghost use Rattle.cell_core.specs.Cells.{bits_from};
ghost use Rattle.cell_nets.specs.Operands.{IsOperand, IsAvailable, IsWide, number_in};
ghost use Rattle.cell_nets.specs.Parts.{ComputesBy};
ghost use Rattle.cell_nets.specs.Wires.{wires_of, always, GivesBy, Gives};

use crate::operand::Operand;
use crate::slice::slice;
use block_core::block::BlockWire;
use block_core::name::Name;
use cell_core::value::bits_from;
use net_core::tree::{Expr, Right};
use std::alloc::{AllocError, Global};

/// Adds a wire after others, and says what it is called. Of 2^32 wires a part has no room for more, as where memory is out.
pub(crate) fn push<P: Copy>(
    wires: &mut Vec<BlockWire<Name<P>>>,
    part: P,
    width: u8,
    right: Right<Name<P>>,
) -> Result<Name<P>, AllocError>
    ensures wires { OnOk result (wires_of wires.new.items ≡ wires_of wires.old.items ++ record { width = width; right = right_of right } ∷ []) }
    ensures name { IfOk result (λ n. n ≡ Name.Wire part (length (wires_of wires.old.items))) }
{
    let Ok(number) = u32::try_from(wires.len()) else {
        return Err(AllocError);
    };
    wires.push(BlockWire { width, right })?;
    Ok(Name::Wire(part, number))
}

/// Adds a wire that has the value of an expression, and gives it as an operand. Memory is out for the 2^32th wire of a part too.
pub fn add_wire<P: Copy>(
    wires: &mut Vec<BlockWire<Name<P>>>,
    part: P,
    width: u8,
    e: Expr<Name<P>>,
) -> Result<Operand<Name<P>>, AllocError>
    requires { IsWide width }
    ensures operand { IfOk result IsOperand }
    ensures gives { (product : Bool) (args : List (Operand (Name P))) (f : Env (Name P) → ℕ) → ((v : Env (Name P)) → f v < 2 ^ width) → ((ins : List (Operand (Name P))) → All (IsAvailable ins) args → ComputesBy product ins width f (tree_of e)) → IfOk result (GivesBy product part (wires_of wires.old.items) (wires_of wires.new.items) args always f width) }
{
    let name = push(wires, part, width, Right::Plain(e))?;
    Ok(Operand::Net(name, width))
}

// What stands for some bits of an operand, from one on, without a wire: a number for those of a number, a net itself for all of its bits, and a
// part of one for some.
fn at_hand<P: Copy>(a: Operand<Name<P>>, from: u8, width: u8) -> Option<Operand<Name<P>>>
    requires operand { IsOperand a }
    requires from { from ≤ 63 }
    requires width { IsWide width }
    ensures { (p : P) (ws : List (BlockWireTree (Name P))) (out : Operand (Name P)) → result ≡ Some out → Gives p ws ws (a ∷ []) always (λ v. bits_from (number_in v a) from width) width out }
{
    let end = from + width;
    match a {
        Operand::Known(n) => Some(Operand::Known(bits_from(n, u32::from(from), u32::from(width)))),
        Operand::Net(net, of) => {
            if from == 0 && of == width {
                Some(Operand::Net(net, of))
            } else if end <= of {
                Some(Operand::Part(net, of, from, width))
            } else {
                None
            }
        }
        Operand::Part(net, of, at, bits) => {
            if end <= bits {
                Some(Operand::Part(net, of, at + from, width))
            } else {
                None
            }
        }
    }
}

/// Some bits of an operand, from one on: a wire where they are not at hand.
pub fn cut<P: Copy>(
    alloc: Global,
    wires: &mut Vec<BlockWire<Name<P>>>,
    part: P,
    a: Operand<Name<P>>,
    from: u8,
    width: u8,
) -> Result<Operand<Name<P>>, AllocError>
    requires operand { IsOperand a }
    requires from { from ≤ 63 }
    requires width { IsWide width }
    ensures { IfOk result (Gives part (wires_of wires.old.items) (wires_of wires.new.items) (a ∷ []) always (λ v. bits_from (number_in v a) from width) width) }
{
    if let Some(out) = at_hand(a, from, width) {
        return Ok(out);
    }
    let e = slice(alloc, a, from, width)?;
    let out = add_wire(wires, part, width, e)?;
    Ok(out)
}
