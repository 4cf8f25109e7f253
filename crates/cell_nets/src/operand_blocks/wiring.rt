//! Blocks of wires alone.

ghost use Rattle.std.specs.Prelude.{◌≡◌, Some, [], ◌∷◌, ◌++◌, length, IfOk, OnOk};
ghost use Rattle.net_core.specs.View.{right_of};
ghost use Rattle.block_core.specs.View.{block_of};
ghost use Rattle.cell_core.specs.Cells.{bits_from};
ghost use Rattle.cell_nets.specs.Operands.{IsOperand, IsWide, number_in};
ghost use Rattle.cell_nets.specs.Wires.{wires_of, always, Gives};
ghost use Rattle.cell_nets.specs.OperandBlocks.Wiring.{wires_block};

use crate::operand::Operand;
use crate::slice::slice;
use block_core::block::{Block, BlockWire};
use block_core::name::{Name, Part};
use net_core::build::block;
use net_core::tree::{Expr, Right, Stmts};
use std::alloc::{AllocError, Global};

// Adds a wire after others, and says what it is called. Of 2^32 wires a part has no room for more, as where memory is out.
fn push<P: Copy>(
    wires: &mut Vec<BlockWire<Name<P>>>,
    part: P,
    width: u8,
    e: Expr<Name<P>>,
) -> Result<Name<P>, AllocError>
    ensures wires { OnOk result (wires_of wires.new.items ≡ wires_of wires.old.items ++ record { width = width; right = right_of (Right.Plain e) } ∷ []) }
    ensures name { IfOk result (λ n. n ≡ Name.Wire part (length (wires_of wires.old.items))) }
{
    let Ok(number) = u32::try_from(wires.len()) else {
        return Err(AllocError);
    };
    wires.push(BlockWire {
        width,
        right: Right::Plain(e),
    })?;
    Ok(Name::Wire(part, number))
}

// The net that an operand is, where it has just so many bits.
fn whole_net<N: Copy>(a: Operand<N>, width: u8) -> Option<N>
    ensures { (n : N) → result ≡ Some n → a ≡ Operand.Net n width }
{
    match a {
        Operand::Net(net, of) => { if of == width { Some(net) } else { None } }
        _ => None,
    }
}

/// So many low bits of an operand as a net: the net that it is, where it has just these, or else a wire of its own.
pub fn named<P: Copy>(
    alloc: Global,
    wires: &mut Vec<BlockWire<Name<P>>>,
    part: P,
    a: Operand<Name<P>>,
    width: u8,
) -> Result<Name<P>, AllocError>
    requires operand { IsOperand a }
    requires width { IsWide width }
    ensures { IfOk result (λ n. Gives part (wires_of wires.old.items) (wires_of wires.new.items) (a ∷ []) always (λ v. bits_from (number_in v a) 0 width) width (Operand.Net n width)) }
{
    if let Some(net) = whole_net(a, width) {
        return Ok(net);
    }
    let e = slice(alloc, a, 0, width)?;
    let n = push(wires, part, width, e)?;
    Ok(n)
}

/// A block that has these wires alone.
pub fn wiring<P: Part>(
    alloc: Global,
    wires: Vec<BlockWire<Name<P>>>,
) -> Result<Block<Name<P>>, AllocError>
    ensures { IfOk result (λ b. block_of b ≡ wires_block (wires_of wires.items)) }
{
    let statement = block(alloc, Stmts::End)?;
    Ok(Block {
        registers: Vec::new(alloc),
        memories: Vec::new(alloc),
        wires,
        statement,
    })
}
