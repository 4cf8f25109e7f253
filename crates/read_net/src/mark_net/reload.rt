//! The part that says whether a mark of the packet at a place calls for a reload.

ghost use Rattle.std.specs.Prelude.{◌≡◌, All, IfOk};
ghost use Rattle.block_core.specs.View.{block_of};
ghost use Rattle.read_net.specs.TouchNet.Marking.{HasOperands};
ghost use Rattle.read_net.specs.MarkNet.Reload.{MustReload};

use crate::touch_net::marks::{MarkNets, reload_net};
use block_core::block::Block;
use block_core::name::{Name, Part};
use overlay_net::cell_nets::operand_blocks::wiring::{named, wiring};
use std::alloc::{AllocError, Global};

/// A part of wires alone, and its net of one bit that says whether a mark calls for a reload.
#[derive(Drop)]
pub struct ReloadPart<N: Drop> {
    pub block: Block<N>,
    pub reload: N,
}

/// The part that says whether one of these marks of a packet must reload, since its guard is known as 1. What stands for a mark whose guard is known as 0 may
/// say anything.
pub fn reload<P: Part>(
    alloc: Global,
    part: P,
    marks: &[MarkNets<Name<P>>],
) -> Result<ReloadPart<Name<P>>, AllocError>
    requires { All HasOperands marks.now }
    ensures { IfOk result (λ r. MustReload part marks.now r.reload (block_of r.block)) }
{
    let mut wires = Vec::new(alloc);
    let any = reload_net(alloc, &mut wires, part, marks)?;
    let reload = named(alloc, &mut wires, part, any, 1)?;
    let block = wiring(alloc, wires)?;
    Ok(ReloadPart { block, reload })
}
