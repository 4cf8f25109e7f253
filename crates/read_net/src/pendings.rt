//! The packet's earlier operations, as a read sees them: whether each writes, and which entry.

ghost use Rattle.std.specs.Prelude.{ℕ, ◌∷◌, ◌++◌, ◌≡◌, All, IfOk};
ghost use Rattle.overlay_net.specs.xdp_maps.declared.decl.MapKind.TheVariants as kind;
ghost use Rattle.overlay_net.specs.cell_core.declared.site.Act.TheVariants as does;
ghost use Rattle.overlay_net.specs.cell_core.Sites.{ProgramView};
ghost use Rattle.pipe_core.specs.hazard_core.StageValues.{StageValues};
ghost use Rattle.pipe_core.specs.hazard_core.Tables.{TableState};
ghost use Rattle.overlay_net.specs.cell_nets.Operands.{IsOperand};
ghost use Rattle.overlay_net.specs.cell_nets.Wires.{wires_of, HasBits};
ghost use Rattle.overlay_net.specs.Reading.{ShowsSlot};
ghost use Rattle.overlay_net.specs.Seen.{read_of, all_read, IsSeen, ShowsPending, ShowPending};
ghost use Rattle.overlay_net.specs.cell_nets.StepNets.Standing.{Stands};
ghost use Rattle.read_net.specs.Sites.{cells_of, all_cells, slot_cells, sites_of, IsMap, IsWhole, IsOwn, IsMapOf, ShowsOwn, ShowsTable, IsSeenOf, AreSeenOf};

use crate::looking::slot_under;
use crate::sites::{MapNets, OwnSite};
use block_core::block::BlockWire;
use block_core::name::Name;
use overlay_net::cell_nets::cell_core::site::Act;
use overlay_net::cell_nets::cell_core::xdp_state::xdp_maps::decl::MapKind;
use overlay_net::cell_nets::operand::Operand;
use overlay_net::site_operands::Pending;
use overlay_net::writing::{writes, written_pointer};
use std::alloc::{AllocError, Global};

/// The number of the pointer to the slot under the key of an update of an array, and 0 of others: what these write they find by a pointer.
fn written_slot<P: Copy>(
    alloc: Global,
    wires: &mut Vec<BlockWire<Name<P>>>,
    part: P,
    map: &MapNets<'_, Name<P>>,
    own: &OwnSite<'_, Name<P>>,
) -> Result<Operand<Name<P>>, AllocError>
    requires map { IsMap map.now }
    requires own { IsWhole map.now own.now }
    ensures operand { IfOk result IsOperand }
    ensures bits { IfOk result (HasBits map.now.bits) }
    ensures stands { (p : ProgramView) (t : TableState) (h : StageValues) (m : ℕ) → IsOwn p m own.now → IsMapOf t m map.now.decl.now → IfOk result (λ o. Stands part (wires_of wires.old.items) (wires_of wires.new.items) (cells_of own.now ++ slot_cells map.now)
        (λ v. ShowsOwn v p h own.now × ShowsTable v t m map.now) (o ∷ cells_of own.now ++ slot_cells map.now) (λ v. (ShowsOwn v p h own.now × ShowsTable v t m map.now) × (own.now.act ≡ does.Update → map.now.decl.now.kind ≡ kind.Array → ShowsSlot v p t h own.now.site o))) }
{
    match map.decl.kind {
        MapKind::Hash => Ok(Operand::Known(0)),
        MapKind::Array => match own.act {
            Act::Update => {
                let out = slot_under(alloc, wires, part, map, own.nets)?;
                Ok(out)
            }
            _ => Ok(Operand::Known(0)),
        },
    }
}

/// One operation, as a read sees it.
fn pending<'a, P: Copy>(
    alloc: Global,
    wires: &mut Vec<BlockWire<Name<P>>>,
    part: P,
    map: &MapNets<'_, Name<P>>,
    own: &OwnSite<'a, Name<P>>,
) -> Result<Pending<'a, Name<P>>, AllocError>
    requires map { IsMap map.now }
    requires own { IsWhole map.now own.now }
    ensures seen { IfOk result (IsSeen map.now.decl.now.key map.now.bits) }
    ensures of { IfOk result (IsSeenOf own.now) }
    ensures stands { (p : ProgramView) (t : TableState) (h : StageValues) (m : ℕ) → IsOwn p m own.now → IsMapOf t m map.now.decl.now → IfOk result (λ d. Stands part (wires_of wires.old.items) (wires_of wires.new.items) (cells_of own.now ++ slot_cells map.now)
        (λ v. ShowsOwn v p h own.now × ShowsTable v t m map.now) (read_of d) (λ v. ShowsPending v p t h own.now.site d)) }
{
    let wrote = writes(alloc, wires, part, own.act, map.decl, own.nets)?;
    let slot = written_slot(alloc, wires, part, map, own)?;
    let written = written_pointer(
        alloc, wires, part, map.bits, own.site, own.act, map.decl, own.nets, slot,
    )?;
    Ok(Pending {
        act: own.act,
        nets: own.nets,
        writes: wrote,
        written,
    })
}

/// The packet's earlier operations on a map, one after another.
pub fn pendings<'a, P: Copy>(
    alloc: Global,
    wires: &mut Vec<BlockWire<Name<P>>>,
    part: P,
    map: &MapNets<'_, Name<P>>,
    earlier: &[OwnSite<'a, Name<P>>],
) -> Result<Vec<Pending<'a, Name<P>>>, AllocError>
    requires map { IsMap map.now }
    requires earlier { All (IsWhole map.now) earlier.now }
    ensures seen { IfOk result (λ r. All (IsSeen map.now.decl.now.key map.now.bits) r.items) }
    ensures of { IfOk result (λ r. AreSeenOf earlier.now r.items) }
    ensures stands { (p : ProgramView) (t : TableState) (h : StageValues) (m : ℕ) → All (IsOwn p m) earlier.now → IsMapOf t m map.now.decl.now → IfOk result (λ r. Stands part (wires_of wires.old.items) (wires_of wires.new.items) (all_cells earlier.now ++ slot_cells map.now)
        (λ v. All (ShowsOwn v p h) earlier.now × ShowsTable v t m map.now) (all_read r.items ++ (all_cells earlier.now ++ slot_cells map.now)) (λ v. (All (ShowsOwn v p h) earlier.now × ShowsTable v t m map.now) × ShowPending v p t h (sites_of earlier.now) r.items)) }
{
    let mut all = Vec::new(alloc);
    for own in earlier {
        let seen = pending(alloc, wires, part, map, own)?;
        all.push(seen)?;
    }
    Ok(all)
}
