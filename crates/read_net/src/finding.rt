//! What a site finds under its key.

ghost use Rattle.std.specs.Prelude.{◌≡◌, ◌∷◌, ◌++◌, ◌*◌, ◌≤◌, All, length, IfOk};
ghost use Rattle.overlay_net.specs.cell_core.Sites.{ProgramView, site_at};
ghost use Rattle.pipe_core.specs.hazard_core.StageValues.{StageValues};
ghost use Rattle.pipe_core.specs.hazard_core.Tables.{TableState};
ghost use Rattle.overlay_net.specs.cell_nets.Operands.{IsOperand};
ghost use Rattle.overlay_net.specs.cell_nets.Wires.{wires_of, HasBits};
ghost use Rattle.overlay_net.specs.Seen.{all_read};
ghost use Rattle.overlay_net.specs.cell_nets.StepNets.Standing.{Stands};
ghost use Rattle.read_net.specs.Sites.{cells_of, IsMap, IsWhole, IsOwn, IsMapOf};
ghost use Rattle.read_net.specs.Reads.{taken, ShowsBoth, IsFound, Finds};

use crate::pendings::pendings;
use crate::sites::{MapNets, OwnSite};
use block_core::block::BlockWire;
use block_core::name::Name;
use overlay_net::cell_nets::operand::Operand;
use overlay_net::finding::{found_pointer, key_pointer};
use overlay_net::site_operands::Pending;
use std::alloc::{AllocError, Global};

/// What a site finds: the packet's earlier operations as it sees them, the entry under its key over them, and what it finds of that.
#[derive(Drop)]
pub(crate) struct FoundNets<'a, N> {
    pub pending: Vec<Pending<'a, N>>,
    pub key: Operand<N>,
    pub found: Operand<N>,
}

/// What a site finds under its key, over the packet's earlier operations, by the slot of the table under it.
pub(crate) fn find<'a, P: Copy>(
    alloc: Global,
    wires: &mut Vec<BlockWire<Name<P>>>,
    part: P,
    map: &MapNets<'_, Name<P>>,
    site: &OwnSite<'_, Name<P>>,
    earlier: &[OwnSite<'a, Name<P>>],
    slot: Operand<Name<P>>,
) -> Result<FoundNets<'a, Name<P>>, AllocError>
    requires map { IsMap map.now }
    requires operands { All IsOperand (cells_of site.now) }
    requires key { map.now.decl.now.key ≤ 8 * length site.now.nets.now.key.items }
    requires earlier { All (IsWhole map.now) earlier.now }
    requires slot { IsOperand slot }
    requires bits { HasBits map.now.bits slot }
    ensures operands { IfOk result (IsFound map.now earlier.now) }
    ensures stands { (p : ProgramView) (t : TableState) (h : StageValues) → (site_at p.sites site.now.site).act ≡ site.now.act → All (IsOwn p (site_at p.sites site.now.site).map) earlier.now → IsMapOf t (site_at p.sites site.now.site).map map.now.decl.now → IfOk result (λ r. Stands part (wires_of wires.old.items) (wires_of wires.new.items) (slot ∷ taken map.now site.now earlier.now)
        (λ v. ShowsBoth v p t h map.now site.now earlier.now slot) (r.key ∷ r.found ∷ all_read r.pending.items ++ taken map.now site.now earlier.now) (λ v. Finds v p t h map.now site.now earlier.now r)) }
{
    let pending = pendings(alloc, wires, part, map, earlier)?;
    let key = key_pointer(
        alloc, wires, part, map.bits, map.decl, site.nets, &pending, slot,
    )?;
    let found = found_pointer(alloc, wires, part, map.bits, site.act, site.nets, key)?;
    Ok(FoundNets {
        pending,
        key,
        found,
    })
}
