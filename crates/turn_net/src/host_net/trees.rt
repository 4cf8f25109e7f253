//! Trees and wires of both parts.

ghost use Rattle.std.specs.Prelude.{◌≡◌, ◌++◌, [], ◌∷◌, IfOk, OnOk, map};
ghost use Rattle.net_core.specs.Nets.{RPlain};
ghost use Rattle.net_core.specs.View.{tree_of};
ghost use Rattle.block_core.specs.View.{block_of, block_wire_of};
ghost use Rattle.cell_nets.specs.OperandBlocks.Wiring as wiring;
ghost use Rattle.turn_net.specs.HostNet.Trees as trees;

use block_core::block::{Block, BlockWire};
use block_core::name::Name;
use net_core::build::{binary, block};
use net_core::tree::{Expr, Op, Right, Stmts};
use std::alloc::{AllocError, Global};

/// What one of these has or the last one, each of as many bits as the others.
pub(crate) fn any_of<P: Copy>(
    alloc: Global,
    mut all: Vec<Expr<Name<P>>>,
    last: Expr<Name<P>>,
) -> Result<Expr<Name<P>>, AllocError>
    ensures { IfOk result (λ e. tree_of e ≡ trees.any_of (map tree_of all.items) (tree_of last)) }
{
    let mut any = last;
    while let Some(one) = all.pop() {
        any = binary(alloc, Op::Or, one, any)?;
    }
    Ok(any)
}

/// Adds a wire.
pub(crate) fn add_wire<P: Copy>(
    all: &mut Vec<BlockWire<Name<P>>>,
    width: u8,
    e: Expr<Name<P>>,
) -> Result<(), AllocError>
    ensures { OnOk result (map block_wire_of all.new.items ≡ map block_wire_of all.old.items ++ record { width = width; right = RPlain (tree_of e) } ∷ []) }
{
    all.push(BlockWire {
        width,
        right: Right::Plain(e),
    })?;
    Ok(())
}

/// A block that stores nothing.
pub(crate) fn of_wires<P: Copy>(
    alloc: Global,
    wires: Vec<BlockWire<Name<P>>>,
) -> Result<Block<Name<P>>, AllocError>
    ensures { IfOk result (λ b. block_of b ≡ wiring.wires_block (map block_wire_of wires.items)) }
{
    let statement = block(alloc, Stmts::End)?;
    Ok(Block {
        registers: Vec::new(alloc),
        memories: Vec::new(alloc),
        wires,
        statement,
    })
}
