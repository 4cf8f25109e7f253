//! The reads of an update and of a delete.

ghost use Rattle.std.specs.Prelude.{ℕ, ◌≡◌, ◌*◌, ◌<◌, ◌≤◌, All, List, length, IfOk};
ghost use Rattle.overlay_net.specs.xdp_machine.State.{PacketIn};
ghost use Rattle.overlay_net.specs.cell_core.declared.site.Act.TheVariants as does;
ghost use Rattle.overlay_net.specs.cell_core.Cells.{CellView};
ghost use Rattle.overlay_net.specs.cell_core.Sites.{ProgramView};
ghost use Rattle.pipe_core.specs.hazard_core.StageValues.{StageValues};
ghost use Rattle.pipe_core.specs.hazard_core.Tables.{TableState, used_count};
ghost use Rattle.pipe_core.specs.hazard_core.Tabled.{IsTable};
ghost use Rattle.pipe_core.specs.hazard_core.declared.slot.Slot.{Slot};
ghost use Rattle.overlay_net.specs.xdp_maps.declared.decl.MapKind.TheVariants as kind;
ghost use Rattle.block_core.specs.net_core.Value.{Env};
ghost use Rattle.overlay_net.specs.cell_nets.Operands.{IsOperand, IsNarrow, IsAvailable, number_in};
ghost use Rattle.overlay_net.specs.cell_nets.Wires.{wires_of, HasBits};
ghost use Rattle.read_net.specs.Sites.{cells_of, slot_cells, IsMap, IsWhole};
ghost use Rattle.read_net.specs.Reads.{AreCells, IsReadOf, Reads};

use crate::finding::find;
use crate::sites::{MapNets, OwnSite, ReadNets};
use block_core::block::BlockWire;
use block_core::name::Name;
use overlay_net::answering::{delete_answer, update_answer};
use overlay_net::cell_nets::cell_core::xdp_state::xdp_maps::decl::MapKind;
use overlay_net::cell_nets::operand::Operand;
use overlay_net::cell_nets::step_nets::truth;
use std::alloc::{AllocError, Global};

/// How many slots of a map are used: of an array all are.
fn used_slots<N: Copy>(map: &MapNets<'_, N>) -> Operand<N>
    requires { IsMap map.now }
    ensures operand { IsOperand result }
    ensures narrow { IsNarrow 17 result }
    ensures there { (ins : List (Operand N)) → All (IsAvailable ins) (slot_cells map.now) → IsAvailable ins result }
    ensures number { (v : Env N) (slots : List Slot) → IsTable map.now.decl.now slots → (map.now.decl.now.kind ≡ kind.Hash → number_in v map.now.used ≡ used_count slots) → number_in v result ≡ used_count slots }
{
    match map.decl.kind {
        MapKind::Hash => map.used,
        MapKind::Array => Operand::Known(map.decl.cap as u64),
    }
}

/// What an update reads: where its key is, over the packet's earlier operations on the map, and so many bits, from one on, of its answer. `slot` is the
/// slot of the table under its key.
pub fn update<P: Copy>(
    alloc: Global,
    wires: &mut Vec<BlockWire<Name<P>>>,
    part: P,
    map: &MapNets<'_, Name<P>>,
    site: &OwnSite<'_, Name<P>>,
    earlier: &[OwnSite<'_, Name<P>>],
    slot: Operand<Name<P>>,
    from: u8,
    width: u8,
) -> Result<ReadNets<Name<P>>, AllocError>
    requires map { IsMap map.now }
    requires act { site.now.act ≡ does.Update }
    requires operands { All IsOperand (cells_of site.now) }
    requires key { map.now.decl.now.key ≤ 8 * length site.now.nets.now.key.items }
    requires earlier { All (IsWhole map.now) earlier.now }
    requires few { length earlier.now < 65536 }
    requires slot { IsOperand slot }
    requires bits { HasBits map.now.bits slot }
    requires from { from ≤ 63 }
    requires width { width ≤ 64 }
    ensures cells { IfOk result (AreCells map.now.bits width) }
    ensures reads { (p : ProgramView) (t : TableState) (h : StageValues) (row : ℕ → ℕ) (r : ℕ) (packet : PacketIn) (c : CellView) → IsReadOf p t row r map.now site.now earlier.now
        → IfOk result (Reads part (wires_of wires.old.items) (wires_of wires.new.items) map.now site.now earlier.now slot from width p t h row r packet c) }
{
    let own = find(alloc, wires, part, map, site, earlier, slot)?;
    let there = truth(alloc, wires, part, own.found)?;
    let used = used_slots(map);
    let answer = update_answer(
        alloc,
        wires,
        part,
        map.decl,
        site.nets,
        &own.pending,
        own.key,
        used,
        from,
        width,
    )?;
    Ok(ReadNets {
        found: own.found,
        there,
        answer,
    })
}

/// What a delete reads: where its key is, over the packet's earlier operations on the map, and so many bits, from one on, of its answer. `slot` is the
/// slot of the table under its key.
pub fn delete<P: Copy>(
    alloc: Global,
    wires: &mut Vec<BlockWire<Name<P>>>,
    part: P,
    map: &MapNets<'_, Name<P>>,
    site: &OwnSite<'_, Name<P>>,
    earlier: &[OwnSite<'_, Name<P>>],
    slot: Operand<Name<P>>,
    from: u8,
    width: u8,
) -> Result<ReadNets<Name<P>>, AllocError>
    requires map { IsMap map.now }
    requires act { site.now.act ≡ does.Delete }
    requires operands { All IsOperand (cells_of site.now) }
    requires key { map.now.decl.now.key ≤ 8 * length site.now.nets.now.key.items }
    requires earlier { All (IsWhole map.now) earlier.now }
    requires slot { IsOperand slot }
    requires bits { HasBits map.now.bits slot }
    requires from { from ≤ 63 }
    requires width { width ≤ 64 }
    ensures cells { IfOk result (AreCells map.now.bits width) }
    ensures reads { (p : ProgramView) (t : TableState) (h : StageValues) (row : ℕ → ℕ) (r : ℕ) (packet : PacketIn) (c : CellView) → IsReadOf p t row r map.now site.now earlier.now
        → IfOk result (Reads part (wires_of wires.old.items) (wires_of wires.new.items) map.now site.now earlier.now slot from width p t h row r packet c) }
{
    let own = find(alloc, wires, part, map, site, earlier, slot)?;
    let there = truth(alloc, wires, part, own.found)?;
    let answer = delete_answer(alloc, wires, part, map.decl, own.key, from, width)?;
    Ok(ReadNets {
        found: own.found,
        there,
        answer,
    })
}
