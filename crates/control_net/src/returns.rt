//! The block that says which places send back: wires alone.

ghost use Rattle.std.specs.Prelude.{◌≡◌, ◌<◌, ◌≤◌, ◌^◌, suc, length, IfOk, map};
ghost use Rattle.std.specs.List.{range_with_len};
ghost use Rattle.net_core.specs.View.{tree_of};
ghost use Rattle.block_core.specs.View.{block_of, block_wire_of};
ghost use Rattle.control_net.specs.RingNet.Trees.{bit_wire};
ghost use Rattle.control_net.specs.Trees as trees;
ghost use Rattle.control_net.specs.Returns.{IsReturns};

use crate::ring_net::names::{Register, register_name};
use crate::ring_net::shape::ControlShape;
use block_core::block::{Block, BlockWire};
use block_core::name::Name;
use net_core::build::{binary, block};
use net_core::tree::{Expr, Op, Right, Stmts};
use std::alloc::{AllocError, Global};

/// The block that says which places send back: a place does that holds a packet of which a net of another part says so, by place up to the commit place. Of
/// each place a wire tells whether it or an older one sends back.
pub fn returns<P: Copy>(
    alloc: Global,
    part: P,
    shape: &ControlShape,
    control: P,
    reload: &[Name<P>],
) -> Result<Block<Name<P>>, AllocError>
    requires { length reload.now ≡ suc shape.now.commit }
    ensures { IfOk result (λ b. IsReturns shape.now part control reload.now (block_of b)) }
{
    let wires = wires(alloc, part, shape, control, reload)?;
    let statement = block(alloc, Stmts::End)?;
    Ok(Block {
        registers: Vec::new(alloc),
        memories: Vec::new(alloc),
        wires,
        statement,
    })
}

fn wires<P: Copy>(
    alloc: Global,
    part: P,
    shape: &ControlShape,
    control: P,
    reload: &[Name<P>],
) -> Result<Vec<BlockWire<Name<P>>>, AllocError>
    requires { length reload.now ≡ suc shape.now.commit }
    ensures { IfOk result (λ r. map block_wire_of r.items ≡ map (trees.back_wire shape.now part control reload.now) (range_with_len 0 (suc shape.now.commit))) }
{
    let mut all = Vec::new(alloc);
    for i in 0..shape.commit + 1 {
        all.push(back_wire(alloc, part, shape, control, reload, i)?)?;
    }
    Ok(all)
}

// The wire of the place that is so many before the commit place.
fn back_wire<P: Copy>(
    alloc: Global,
    part: P,
    shape: &ControlShape,
    control: P,
    reload: &[Name<P>],
    i: u32,
) -> Result<BlockWire<Name<P>>, AllocError>
    requires count { length reload.now ≡ suc shape.now.commit }
    requires there { i ≤ shape.now.commit }
    ensures { IfOk result (λ w. block_wire_of w ≡ trees.back_wire shape.now part control reload.now i) }
{
    let own = sent(alloc, control, reload, shape.commit - i)?;
    if i == 0 {
        return Ok(bit_wire(own));
    }
    let older = Expr::Read(Name::Wire(part, i - 1));
    let either = binary(alloc, Op::Or, own, older)?;
    Ok(bit_wire(either))
}

// Whether a place sends back.
fn sent<P: Copy>(
    alloc: Global,
    control: P,
    reload: &[Name<P>],
    k: u32,
) -> Result<Expr<Name<P>>, AllocError>
    requires there { k < length reload.now }
    requires few { k < 2 ^ 16 }
    ensures { IfOk result (λ e. tree_of e ≡ trees.sent control reload.now k) }
{
    let holds = Expr::Read(register_name(control, Register::Holds(k)));
    let must_reload = Expr::Read(reload[k as usize]);
    binary(alloc, Op::And, holds, must_reload)
}

/// A wire of one bit.
pub(crate) fn bit_wire<P: Copy>(e: Expr<Name<P>>) -> BlockWire<Name<P>>
    ensures { block_wire_of result ≡ bit_wire (tree_of e) }
{
    BlockWire {
        width: 1,
        right: Right::Plain(e),
    }
}
