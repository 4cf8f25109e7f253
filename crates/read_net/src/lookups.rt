//! The read of a lookup.

ghost use Rattle.std.specs.Prelude.{ℕ, ◌≡◌, ◌*◌, ◌≤◌, All, length, IfOk};
ghost use Rattle.overlay_net.specs.xdp_machine.State.{PacketIn};
ghost use Rattle.overlay_net.specs.cell_core.declared.site.Act.TheVariants as does;
ghost use Rattle.overlay_net.specs.cell_core.Cells.{CellView};
ghost use Rattle.overlay_net.specs.cell_core.Sites.{ProgramView};
ghost use Rattle.pipe_core.specs.hazard_core.StageValues.{StageValues};
ghost use Rattle.pipe_core.specs.hazard_core.Tables.{TableState};
ghost use Rattle.overlay_net.specs.cell_nets.Operands.{IsOperand};
ghost use Rattle.overlay_net.specs.cell_nets.Wires.{wires_of, HasBits};
ghost use Rattle.read_net.specs.Sites.{cells_of, IsMap, IsWhole};
ghost use Rattle.read_net.specs.Reads.{AreCells, IsReadOf, Reads};

use crate::finding::find;
use crate::sites::{MapNets, OwnSite, ReadNets};
use block_core::block::BlockWire;
use block_core::name::Name;
use overlay_net::answering::lookup_answer;
use overlay_net::cell_nets::operand::Operand;
use overlay_net::cell_nets::step_nets::truth;
use std::alloc::{AllocError, Global};

/// What a lookup reads: where its key is, over the packet's earlier operations on the map, and so many bits, from one on, of its answer. `slot` is the
/// slot of the table under its key.
pub fn lookup<P: Copy>(
    alloc: Global,
    wires: &mut Vec<BlockWire<Name<P>>>,
    part: P,
    map: &MapNets<'_, Name<P>>,
    site: &OwnSite<'_, Name<P>>,
    earlier: &[OwnSite<'_, Name<P>>],
    slot: Operand<Name<P>>,
    from: u8,
    width: u8,
) -> Result<ReadNets<Name<P>>, AllocError>
    requires map { IsMap map.now }
    requires act { site.now.act ≡ does.Lookup }
    requires operands { All IsOperand (cells_of site.now) }
    requires key { map.now.decl.now.key ≤ 8 * length site.now.nets.now.key.items }
    requires earlier { All (IsWhole map.now) earlier.now }
    requires slot { IsOperand slot }
    requires bits { HasBits map.now.bits slot }
    requires from { from ≤ 63 }
    requires width { width ≤ 64 }
    ensures cells { IfOk result (AreCells map.now.bits width) }
    ensures reads { (p : ProgramView) (t : TableState) (h : StageValues) (row : ℕ → ℕ) (r : ℕ) (packet : PacketIn) (c : CellView) → IsReadOf p t row r map.now site.now earlier.now
        → IfOk result (Reads part (wires_of wires.old.items) (wires_of wires.new.items) map.now site.now earlier.now slot from width p t h row r packet c) }
{
    let own = find(alloc, wires, part, map, site, earlier, slot)?;
    let there = truth(alloc, wires, part, own.found)?;
    let answer = lookup_answer(alloc, wires, part, own.key, from, width)?;
    Ok(ReadNets {
        found: own.found,
        there,
        answer,
    })
}
