//! The part with the word that the host reads: one wire.

ghost use Rattle.std.specs.Prelude.{◌≡◌, ◌≤◌, IfOk, length, map};
ghost use Rattle.net_core.specs.Nets.{TRead};
ghost use Rattle.net_core.specs.View.{tree_of};
ghost use Rattle.block_core.specs.View.{block_of, block_wire_of};
ghost use Rattle.turn_net.specs.HostNet.Trees as trees;
ghost use Rattle.turn_net.specs.HostNet.Values.{IsValue};

use crate::host_net::trees::{add_wire, any_of, of_wires};
use block_core::block::{Block, BlockWire};
use block_core::name::Name;
use net_core::build::{conditional, constant};
use net_core::tree::Expr;
use std::alloc::{AllocError, Global};

/// The block with the word that the host reads: that of the one map that it names, where the host is heard, and else 0. Each map shows 0 where it is not named.
pub fn value<P: Copy>(
    alloc: Global,
    part: P,
    ready: Name<P>,
    words: &[Name<P>],
) -> Result<Block<Name<P>>, AllocError>
    requires { length words.now ≤ 16 }
    ensures { IfOk result (λ b. IsValue part ready words.now (block_of b)) }
{
    let wires = wires(alloc, ready, words)?;
    let block = of_wires(alloc, wires)?;
    Ok(block)
}

fn wires<P: Copy>(
    alloc: Global,
    ready: Name<P>,
    words: &[Name<P>],
) -> Result<Vec<BlockWire<Name<P>>>, AllocError>
    ensures { IfOk result (λ r. map block_wire_of r.items ≡ trees.value_wires ready words.now) }
{
    let mut all = Vec::new(alloc);
    let shown = shown(alloc, ready, words)?;
    add_wire(&mut all, 64, shown)?;
    Ok(all)
}

// The word of one map, where the host is heard.
fn shown<P: Copy>(
    alloc: Global,
    ready: Name<P>,
    words: &[Name<P>],
) -> Result<Expr<Name<P>>, AllocError>
    ensures { IfOk result (λ e. tree_of e ≡ trees.shown ready words.now) }
{
    let reads = reads(alloc, words)?;
    let any = any_of(alloc, reads, constant(64, 0))?;
    conditional(alloc, Expr::Read(ready), any, constant(64, 0))
}

// The values of nets.
fn reads<P: Copy>(alloc: Global, names: &[Name<P>]) -> Result<Vec<Expr<Name<P>>>, AllocError>
    ensures { IfOk result (λ r. map tree_of r.items ≡ map TRead names.now) }
{
    let mut all = Vec::new(alloc);
    for name in names {
        all.push(Expr::Read(*name))?;
    }
    Ok(all)
}
