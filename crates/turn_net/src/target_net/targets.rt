//! What the operations at the record sites of a map write.

ghost use Rattle.std.specs.Prelude.{ℕ, List, ◌∷◌, ◌++◌, ◌≡◌, ◌^◌, ◌≤◌, All, length, IfOk};
ghost use Rattle.block_core.specs.View.{block_of};
ghost use Rattle.hazard_core.specs.cell_core.Sites.{ProgramView};
ghost use Rattle.hazard_core.specs.StageValues.{StageValues};
ghost use Rattle.hazard_core.specs.Tables.{TableState, table_at};
ghost use Rattle.cell_nets.specs.Operands.{IsOperand, IsWide};
ghost use Rattle.cell_nets.specs.Wires.{wires_of};
ghost use Rattle.commit_net.specs.Targets.{slots_of};
ghost use Rattle.cell_nets.specs.StepNets.Standing.{Stands};
ghost use Rattle.read_net.specs.Sites.{IsMap, IsWhole, IsOwn, IsMapOf};
ghost use Rattle.turn_net.specs.TargetNet.Targets.{all_of, written_of, outside_of, IsWritten, AsksTargets, Shows, ShowTargets, HasTargets, IsTargets};

use crate::target_net::free::first_free;
use crate::target_net::laws::tables_are_there;
use block_core::block::{Block, BlockWire};
use block_core::name::{Name, Part};
use cell_nets::operand::Operand;
use cell_nets::operand_blocks::wiring::wiring;
use commit_net::target::{TakenSlot, makes_entry, target};
use overlay_net::site_operands::Pending;
use read_net::pendings::pendings;
use read_net::sites::{MapNets, OwnSite};
use std::alloc::{AllocError, Global};

/// What an operation writes: the slot, and whether it makes an entry there.
#[derive(Copy, Clone)]
pub struct Target<N> {
    pub slot: Operand<N>,
    pub makes: Operand<N>,
}

/// The part, and what it gives of each operation.
#[derive(Drop)]
pub struct TargetPart<P: Drop> {
    pub block: Block<Name<P>>,
    pub targets: Vec<Target<Name<P>>>,
}

/// What each of some operations writes, by the pointers to their entries.
fn each_target<P: Copy>(
    alloc: Global,
    wires: &mut Vec<BlockWire<Name<P>>>,
    part: P,
    slot_bits: u8,
    records: &[OwnSite<'_, Name<P>>],
    seen: &[Pending<'_, Name<P>>],
    free: Operand<Name<P>>,
    taken: &[TakenSlot<Name<P>>],
) -> Result<Vec<Target<Name<P>>>, AllocError>
    requires slot_bits { IsWide slot_bits }
    requires count { length seen.now ≡ length records.now }
    requires seen { All IsWritten seen.now }
    requires free { IsOperand free }
    requires taken { All IsOperand (slots_of taken.now) }
    ensures has { IfOk result (λ r. HasTargets slot_bits records.now r.items) }
    ensures stands { (p : ProgramView) (t : TableState) (took : List ℕ) (h : StageValues) (m : ℕ) → length (table_at t m) ≤ 2 ^ slot_bits → All (IsOwn p m) records.now → IfOk result (λ r. Stands part (wires_of wires.old.items) (wires_of wires.new.items) (written_of seen.now ++ free ∷ slots_of taken.now)
        (λ v. AsksTargets v p t took h m records.now seen.now free taken.now) (all_of r.items ++ (written_of seen.now ++ free ∷ slots_of taken.now)) (λ v. ShowTargets v p t took h taken.now records.now r.items)) }
{
    let mut all = Vec::new(alloc);
    for i in 0..records.len() {
        let own = records[i];
        let written = seen[i].written;
        let slot = target(
            alloc, wires, part, slot_bits, own.site, written, free, taken,
        )?;
        let makes = makes_entry(alloc, wires, part, own.act, own.site, written)?;
        all.push(Target { slot, makes })?;
    }
    Ok(all)
}

/// The nets of it: the pointers to the entries, the first free slot, and what each operation writes.
fn target_nets<P: Copy>(
    alloc: Global,
    wires: &mut Vec<BlockWire<Name<P>>>,
    part: P,
    map: &MapNets<'_, Name<P>>,
    slot_bits: u8,
    records: &[OwnSite<'_, Name<P>>],
    taken: &[TakenSlot<Name<P>>],
) -> Result<Vec<Target<Name<P>>>, AllocError>
    requires map { IsMap map.now }
    requires slot_bits { IsWide slot_bits }
    requires room { map.now.decl.now.cap ≤ 2 ^ slot_bits }
    requires records { All (IsWhole map.now) records.now }
    requires taken { All IsOperand (slots_of taken.now) }
    ensures has { IfOk result (λ r. HasTargets slot_bits records.now r.items) }
    ensures stands { (p : ProgramView) (t : TableState) (took : List ℕ) (h : StageValues) (m : ℕ) → All (IsOwn p m) records.now → IsMapOf t m map.now.decl.now → IfOk result (λ r. Stands part (wires_of wires.old.items) (wires_of wires.new.items) (outside_of map.now records.now taken.now)
        (λ v. Shows v p t took h m map.now records.now taken.now) (all_of r.items) (λ v. ShowTargets v p t took h taken.now records.now r.items)) }
{
    let seen = pendings(alloc, wires, part, map, records)?;
    let free = first_free(alloc, wires, part, map, records)?;
    let all = each_target(alloc, wires, part, slot_bits, records, &seen, free, taken)?;
    Ok(all)
}

/// The part that says of each operation at the record sites of a map, in order, which slot it writes, in so many bits, and whether it makes an entry there.
///
/// It reads the cells of the sites, the slots of the map, and the slots that updates of the packet's own took, of this map or of others. The first free
/// slot of a hash is searched once for all.
pub fn targets<P: Part>(
    alloc: Global,
    part: P,
    map: &MapNets<'_, Name<P>>,
    slot_bits: u8,
    records: &[OwnSite<'_, Name<P>>],
    taken: &[TakenSlot<Name<P>>],
) -> Result<TargetPart<P>, AllocError>
    requires map { IsMap map.now }
    requires slot_bits { IsWide slot_bits }
    requires room { map.now.decl.now.cap ≤ 2 ^ slot_bits }
    requires records { All (IsWhole map.now) records.now }
    requires taken { All IsOperand (slots_of taken.now) }
    ensures { (p : ProgramView) (m : ℕ) → All (IsOwn p m) records.now → IfOk result (λ r. IsTargets p m part map.now slot_bits records.now taken.now r.targets.items (block_of r.block)) }
{
    let mut wires = Vec::new(alloc);
    let targets = target_nets(alloc, &mut wires, part, map, slot_bits, records, taken)?;
    let block = wiring(alloc, wires)?;
    tables_are_there();
    Ok(TargetPart { block, targets })
}
