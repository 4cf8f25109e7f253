//! The slot under the key of a site.

ghost use Rattle.std.specs.Prelude.{ℕ, ◌≡◌, ◌*◌, ◌≤◌, ◌++◌, All, length, IfOk};
ghost use Rattle.overlay_net.specs.cell_core.Sites.{ProgramView, site_at};
ghost use Rattle.pipe_core.specs.hazard_core.StageValues.{StageValues, asked_key, slot_pointer};
ghost use Rattle.pipe_core.specs.hazard_core.Tables.{TableState, table_at};
ghost use Rattle.overlay_net.specs.cell_nets.Operands.{IsOperand};
ghost use Rattle.overlay_net.specs.cell_nets.Wires.{wires_of, HasBits, Gives};
ghost use Rattle.overlay_net.specs.SiteOperands.Pointers.{pointer_number};
ghost use Rattle.overlay_net.specs.SiteOperands.Sites.{operands_of, all_of, ShowsAsked};
ghost use Rattle.read_net.specs.Sites.{slot_cells, IsMap, IsMapOf, ShowsTable};

use crate::sites::MapNets;
use block_core::block::BlockWire;
use block_core::name::Name;
use hash_net::slot_net::finding::find_slot;
use hash_net::slot_net::index_pointer;
use overlay_net::cell_nets::cell_core::xdp_state::xdp_maps::decl::MapKind;
use overlay_net::cell_nets::operand::Operand;
use overlay_net::site_operands::SiteNets;
use std::alloc::{AllocError, Global};

/// The number of the pointer to the slot that is used under the key of a site, 0 where there is none.
pub fn slot_under<P: Copy>(
    alloc: Global,
    wires: &mut Vec<BlockWire<Name<P>>>,
    part: P,
    map: &MapNets<'_, Name<P>>,
    nets: &SiteNets<Name<P>>,
) -> Result<Operand<Name<P>>, AllocError>
    requires map { IsMap map.now }
    requires operands { All IsOperand (all_of (operands_of nets.now)) }
    requires key { map.now.decl.now.key ≤ 8 * length nets.now.key.items }
    ensures operand { IfOk result IsOperand }
    ensures bits { IfOk result (HasBits map.now.bits) }
    ensures gives { (p : ProgramView) (t : TableState) (h : StageValues) (j : ℕ) → IsMapOf t (site_at p.sites j).map map.now.decl.now → IfOk result (Gives part (wires_of wires.old.items) (wires_of wires.new.items) (all_of (operands_of nets.now) ++ slot_cells map.now)
        (λ v. ShowsAsked v p h j (operands_of nets.now) × ShowsTable v t (site_at p.sites j).map map.now) (λ v. pointer_number (slot_pointer (table_at t (site_at p.sites j).map) (asked_key t.decls h (site_at p.sites j)))) map.now.bits) }
{
    match map.decl.kind {
        MapKind::Hash => {
            let out = find_slot(alloc, wires, part, map.decl, map.slots, &nets.key, map.bits)?;
            Ok(out)
        }
        MapKind::Array => {
            let out = index_pointer(alloc, wires, part, map.decl, &nets.key, map.bits)?;
            Ok(out)
        }
    }
}
