//! The part that gives what a clock changes in a map.

ghost use Rattle.std.specs.Prelude.{◌≡◌, ◌<◌, All, length, IfOk};
ghost use Rattle.block_core.specs.View.{block_of};
ghost use Rattle.overlay_net.specs.xdp_maps.Contents.{IsWithinLimits};
ghost use Rattle.overlay_net.specs.cell_nets.Operands.{IsWide};
ghost use Rattle.commit_net.specs.Choosing.{HasOperands};
ghost use Rattle.commit_net.specs.ChangeNet.Written.{key_count};
ghost use Rattle.commit_net.specs.ChangeNet.Changes.{IsChange, StandsFor};

use crate::change_net::keys::change_key;
use crate::change_net::presence::{any_net, host_net, presence_net};
use crate::choosing::CommitNets;
use block_core::block::Block;
use block_core::name::{Name, Part};
use overlay_net::cell_nets::cell_core::xdp_state::xdp_maps::decl::MapDecl;
use overlay_net::cell_nets::operand::Operand;
use overlay_net::cell_nets::operand_blocks::wiring::wiring;
use read_net::touch_net::change::ChangeNets;
use std::alloc::{AllocError, Global};

/// A part that gives what a clock changes in a map: its block, operands for the slot, for the key there and for whether the key comes or goes, and two nets
/// of one bit: whether the map changes at all, and whether the host writes in it.
#[derive(Drop)]
pub struct ChangePart<N: Drop> {
    pub block: Block<N>,
    pub slot: Operand<N>,
    pub key: Vec<Operand<N>>,
    pub presence: Operand<N>,
    pub any: N,
    pub by_host: N,
}

impl<N: Copy + Drop> ChangePart<N> {
    /// What stands for the change.
    pub fn nets(&self) -> ChangeNets<'_, N>
        ensures { StandsFor self.now.slot self.now.key.items self.now.presence result }
    {
        ChangeNets {
            slot: self.slot,
            key: &self.key,
            presence: self.presence,
        }
    }
}

/// The part that gives what a clock changes in the map of a number: the slot that it writes, of which nets show the words of the key, of a hash; the key of the
/// change, which is that of an update or a delete that commits, else the one in the slot; and whether it comes or goes. An operation on the map
/// commits, or the host writes in some map, where nets say so.
pub fn change<P: Part>(
    alloc: Global,
    part: P,
    number: u8,
    bits: u8,
    decl: &MapDecl,
    sites: &[CommitNets<'_, Name<P>>],
    commits: Name<P>,
    host: Name<P>,
    slot: Name<P>,
    keys: &[Name<P>],
) -> Result<ChangePart<Name<P>>, AllocError>
    requires operands { All HasOperands sites.now }
    requires bits { IsWide bits }
    requires limits { IsWithinLimits decl.now }
    requires keys { length keys.now ≡ key_count decl.now }
    ensures { IfOk result (λ r. IsChange part number decl.now bits sites.now commits host slot keys.now r.slot r.key.items r.presence r.any r.by_host (block_of r.block)) }
{
    let mut wires = Vec::new(alloc);
    let acts = Operand::Net(commits, 1);
    let slot = Operand::Net(slot, bits);
    let presence = presence_net(alloc, &mut wires, part, sites, acts)?;
    let key = change_key(alloc, &mut wires, part, decl, sites, acts, slot, keys)?;
    let by_host = host_net(alloc, &mut wires, part, number, Operand::Net(host, 1))?;
    let any = any_net(alloc, &mut wires, part, acts, Operand::Net(by_host, 1))?;
    let block = wiring(alloc, wires)?;
    Ok(ChangePart {
        block,
        slot,
        key,
        presence,
        any,
        by_host,
    })
}
