//! The part that says what the host may do in a clock: wires alone.

ghost use Rattle.std.specs.Prelude.{◌≡◌, IfOk, map};
ghost use Rattle.net_core.specs.View.{tree_of};
ghost use Rattle.block_core.specs.View.{block_of, block_wire_of};
ghost use Rattle.turn_net.specs.HostNet.Trees as trees;
ghost use Rattle.turn_net.specs.HostNet.Host.{IsHost};

use crate::host_net::names::{HostNets, Wire, wire_name};
use crate::host_net::trees::{add_wire, any_of, of_wires};
use block_core::block::{Block, BlockWire};
use block_core::name::Name;
use control_net::ring_net::control::compared;
use control_net::ring_net::names::Counter;
use net_core::build::{binary, constant, unary};
use net_core::ports::HOST_WRITE;
use net_core::tree::{Expr, Op, UnaryOp};
use std::alloc::{AllocError, Global};

/// The block that says what the host may do: whether no frame is inside, whether the host is heard, and whether it writes. Of each map a tree of one bit says
/// whether the host names a word of it that it may write; these trees may read the first wire.
pub fn host<P: Copy>(
    alloc: Global,
    part: P,
    nets: &HostNets<P>,
    may: Vec<Expr<Name<P>>>,
) -> Result<Block<Name<P>>, AllocError>
    ensures { IfOk result (λ b. IsHost part nets.now (map tree_of may.items) (block_of b)) }
{
    let wires = wires(alloc, part, nets, may)?;
    let block = of_wires(alloc, wires)?;
    Ok(block)
}

fn wires<P: Copy>(
    alloc: Global,
    part: P,
    nets: &HostNets<P>,
    may: Vec<Expr<Name<P>>>,
) -> Result<Vec<BlockWire<Name<P>>>, AllocError>
    ensures { IfOk result (λ r. map block_wire_of r.items ≡ trees.host_wires part nets.now (map tree_of may.items)) }
{
    let mut all = Vec::new(alloc);
    let idle = idle(alloc, nets)?;
    add_wire(&mut all, 1, idle)?;
    let ready = ready(alloc, part, nets)?;
    add_wire(&mut all, 1, ready)?;
    let writes = writes(alloc, part, may)?;
    add_wire(&mut all, 1, writes)?;
    Ok(all)
}

// No frame has begun, and as many are given as have come.
fn idle<P: Copy>(alloc: Global, nets: &HostNets<P>) -> Result<Expr<Name<P>>, AllocError>
    ensures { IfOk result (λ e. tree_of e ≡ trees.idle nets.now) }
{
    let inside = compared(
        alloc,
        nets.control,
        Op::NotEqual,
        Counter::Gathered,
        Counter::Given,
    )?;
    let none = unary(alloc, UnaryOp::Not, inside)?;
    let whole = unary(alloc, UnaryOp::Not, Expr::Read(nets.partial))?;
    binary(alloc, Op::And, whole, none)
}

// No packet is amid its operations.
fn ready<P: Copy>(alloc: Global, part: P, nets: &HostNets<P>) -> Result<Expr<Name<P>>, AllocError>
    ensures { IfOk result (λ e. tree_of e ≡ trees.ready part nets.now) }
{
    let begun = unary(alloc, UnaryOp::ReduceOr, Expr::Read(nets.done))?;
    let amid = binary(alloc, Op::And, Expr::Read(nets.present), begun)?;
    let free = unary(alloc, UnaryOp::Not, amid)?;
    binary(alloc, Op::Or, Expr::Read(wire_name(part, Wire::Idle)), free)
}

// The host is heard and has something to write, and one of the maps lets it.
fn writes<P: Copy>(
    alloc: Global,
    part: P,
    may: Vec<Expr<Name<P>>>,
) -> Result<Expr<Name<P>>, AllocError>
    ensures { IfOk result (λ e. tree_of e ≡ trees.writes part (map tree_of may.items)) }
{
    let ready = Expr::Read(wire_name(part, Wire::Ready));
    let asks = binary(alloc, Op::And, ready, Expr::Read(Name::Port(HOST_WRITE)))?;
    let lets = any_of(alloc, may, constant(1, 0))?;
    binary(alloc, Op::And, asks, lets)
}
