//! The first slot of a map that is free.

ghost use Rattle.std.specs.Prelude.{ℕ, ◌∷◌, ◌<◌, length, IfOk};
ghost use Rattle.hazard_core.specs.Tables.{TableState, table_at};
ghost use Rattle.cell_nets.specs.Operands.{IsOperand};
ghost use Rattle.cell_nets.specs.Wires.{wires_of};
ghost use Rattle.cell_nets.specs.StepNets.Standing.{Stands};
ghost use Rattle.read_net.specs.Sites.{slot_cells, IsMap, IsMapOf, ShowsTable};
ghost use Rattle.turn_net.specs.TargetNet.Targets.{ShowsFree};

use block_core::block::BlockWire;
use block_core::name::Name;
use cell_nets::cell_core::xdp_state::xdp_maps::decl::MapKind;
use cell_nets::operand::Operand;
use hash_net::slot_net::finding::free_slot;
use read_net::sites::{MapNets, OwnSite};
use std::alloc::{AllocError, Global};

/// The first free slot of a map, for the operations at some sites. An array has none, and where there is no operation none is searched.
pub(crate) fn first_free<P: Copy>(
    alloc: Global,
    wires: &mut Vec<BlockWire<Name<P>>>,
    part: P,
    map: &MapNets<'_, Name<P>>,
    records: &[OwnSite<'_, Name<P>>],
) -> Result<Operand<Name<P>>, AllocError>
    requires { IsMap map.now }
    ensures operand { IfOk result IsOperand }
    ensures stands { (t : TableState) (m : ℕ) → IsMapOf t m map.now.decl.now → IfOk result (λ o. Stands part (wires_of wires.old.items) (wires_of wires.new.items) (slot_cells map.now)
        (λ v. ShowsTable v t m map.now) (o ∷ slot_cells map.now) (λ v. ShowsTable v t m map.now × (0 < length records.now → ShowsFree v (table_at t m) o))) }
{
    if records.is_empty() {
        return Ok(Operand::Known(0));
    }
    match map.decl.kind {
        MapKind::Hash => {
            let out = free_slot(alloc, wires, part, map.slots, map.bits)?;
            Ok(out)
        }
        MapKind::Array => Ok(Operand::Known(0)),
    }
}
