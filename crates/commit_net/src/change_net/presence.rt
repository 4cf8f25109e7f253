//! Nets of whether a key comes or goes, and of whether a map changes at all.

ghost use Rattle.std.specs.Prelude.{[], ◌∷◌, ◌==◌, ◌<◌, ◌&&◌, ◌||◌, All, IfOk};
ghost use Rattle.net_core.specs.declared.ports.TheConstants.{HOST_MAP};
ghost use Rattle.overlay_net.specs.cell_core.Cells.{bit, on};
ghost use Rattle.overlay_net.specs.cell_nets.declared.operand.Operand.{Operand};
ghost use Rattle.overlay_net.specs.cell_nets.Operands.{IsOperand, number_in};
ghost use Rattle.overlay_net.specs.cell_nets.Wires.{wires_of, always, Gives};
ghost use Rattle.overlay_net.specs.cell_nets.StepNets.Standing.{Stands};
ghost use Rattle.commit_net.specs.Choosing.{all_read, HasOperands};
ghost use Rattle.commit_net.specs.ChangeNet.Changes.{host_map, ShowsPresence};

use crate::choosing::{CommitNets, delete_net, insert_net};
use block_core::block::BlockWire;
use block_core::name::Name;
use net_core::ports::HOST_MAP;
use overlay_net::cell_nets::operand::Operand;
use overlay_net::cell_nets::operand_blocks::wiring::named;
use overlay_net::cell_nets::step_nets::{both, choose, equal, truth};
use std::alloc::{AllocError, Global};

/// Whether the operation that commits takes an entry away or puts one there: 0 where none commits.
pub(crate) fn presence_net<P: Copy>(
    alloc: Global,
    wires: &mut Vec<BlockWire<Name<P>>>,
    part: P,
    sites: &[CommitNets<'_, Name<P>>],
    commits: Operand<Name<P>>,
) -> Result<Operand<Name<P>>, AllocError>
    requires operands { All HasOperands sites.now }
    requires commits { IsOperand commits }
    ensures operand { IfOk result IsOperand }
    ensures stands { IfOk result (λ o. Stands part (wires_of wires.old.items) (wires_of wires.new.items) (commits ∷ all_read sites.now) always (o ∷ []) (λ v. ShowsPresence v sites.now commits o)) }
{
    let inserts = Operand::Net(insert_net(alloc, wires, part, sites)?, 1);
    let deletes = Operand::Net(delete_net(alloc, wires, part, sites)?, 1);
    let moves = choose(alloc, wires, part, deletes, Operand::Known(1), inserts, 1)?;
    let out = both(alloc, wires, part, commits, moves)?;
    Ok(out)
}

/// Whether the host writes in the map of this number.
pub(crate) fn host_net<P: Copy>(
    alloc: Global,
    wires: &mut Vec<BlockWire<Name<P>>>,
    part: P,
    number: u8,
    host: Operand<Name<P>>,
) -> Result<Name<P>, AllocError>
    requires { IsOperand host }
    ensures { IfOk result (λ n. Gives part (wires_of wires.old.items) (wires_of wires.new.items) (host ∷ host_map ∷ []) always (λ v. bit (on (number_in v host) && (number_in v host_map == number))) 1 (Operand.Net n 1)) }
{
    let map = Operand::Net(Name::Port(HOST_MAP), 4);
    let here = equal(alloc, wires, part, map, Operand::Known(u64::from(number)))?;
    let writes = both(alloc, wires, part, host, here)?;
    let out = named(alloc, wires, part, writes, 1)?;
    Ok(out)
}

/// Whether one of two operands is not 0, as a net.
pub(crate) fn any_net<P: Copy>(
    alloc: Global,
    wires: &mut Vec<BlockWire<Name<P>>>,
    part: P,
    a: Operand<Name<P>>,
    b: Operand<Name<P>>,
) -> Result<Name<P>, AllocError>
    requires left { IsOperand a }
    requires right { IsOperand b }
    ensures { IfOk result (λ n. Gives part (wires_of wires.old.items) (wires_of wires.new.items) (a ∷ b ∷ []) always (λ v. bit (on (number_in v a) || on (number_in v b))) 1 (Operand.Net n 1)) }
{
    let second = truth(alloc, wires, part, b)?;
    let either = choose(alloc, wires, part, a, Operand::Known(1), second, 1)?;
    let out = named(alloc, wires, part, either, 1)?;
    Ok(out)
}
