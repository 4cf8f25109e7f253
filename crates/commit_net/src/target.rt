//! The slot that the operation at a site writes, and whether it makes an entry of its own.

ghost use Rattle.std.specs.Prelude.{ℕ, List, [], ◌∷◌, ◌≡◌, ◌==◌, ◌+◌, ◌*◌, ◌<◌, ◌^◌, if◌then◌else◌, All, IfOk};
ghost use Rattle.overlay_net.specs.cell_core.Cells.{bit, bits_from};
ghost use Rattle.overlay_net.specs.cell_core.Sites.{ProgramView, site_at};
ghost use Rattle.overlay_net.specs.hazard_core.Tables.{TableState};
ghost use Rattle.overlay_net.specs.hazard_core.StageValues.{StageValues};
ghost use Rattle.overlay_net.specs.hazard_core.Commits.{written_slot, makes_entry};
ghost use Rattle.overlay_net.specs.cell_nets.Operands.{IsOperand, IsWide, number_in};
ghost use Rattle.overlay_net.specs.cell_nets.Wires.{wires_of, always, HasBits, Gives};
ghost use Rattle.commit_net.specs.Targets.{slots_of, ShowsWritten, ShowsTarget};

use block_core::block::BlockWire;
use block_core::name::Name;
use overlay_net::cell_nets::cell_core::site::Act;
use overlay_net::cell_nets::operand::Operand;
use overlay_net::cell_nets::step_nets::{choose, equal};
use overlay_net::cell_nets::wires::cut;
use std::alloc::{AllocError, Global};

/// The slot that an update of the packet's own took, by the number of its site.
#[derive(Copy, Clone)]
pub struct TakenSlot<N> {
    pub site: u32,
    pub slot: Operand<N>,
}

/// The number of the pointer to the entry that an update is to make.
fn pending_number(site: u32) -> u64
    ensures { result ≡ 4 * site + 2 }
{
    site as u64 * 4 + 2
}

/// One slot where a pointer has this number, else another one.
fn where_pending<P: Copy>(
    alloc: Global,
    wires: &mut Vec<BlockWire<Name<P>>>,
    part: P,
    bits: u8,
    site: u32,
    written: Operand<Name<P>>,
    slot: Operand<Name<P>>,
    other: Operand<Name<P>>,
) -> Result<Operand<Name<P>>, AllocError>
    requires bits { IsWide bits }
    requires written { IsOperand written }
    requires slot { IsOperand slot }
    requires other { IsOperand other }
    ensures { IfOk result (Gives part (wires_of wires.old.items) (wires_of wires.new.items) (written ∷ slot ∷ other ∷ []) always (λ v. bits_from (if number_in v written == 4 * site + 2 then number_in v slot else number_in v other) 0 bits) bits) }
{
    let number = pending_number(site);
    let same = equal(alloc, wires, part, written, Operand::Known(number))?;
    let out = choose(alloc, wires, part, same, slot, other, bits)?;
    Ok(out)
}

/// The slot that the operation at a site writes, in so many bits, by the number of the pointer to its entry: that of the pointer, the one
/// that the update took which made the entry, or for a new one the first that is free.
pub fn target<P: Copy>(
    alloc: Global,
    wires: &mut Vec<BlockWire<Name<P>>>,
    part: P,
    bits: u8,
    site: u32,
    written: Operand<Name<P>>,
    free: Operand<Name<P>>,
    taken: &[TakenSlot<Name<P>>],
) -> Result<Operand<Name<P>>, AllocError>
    requires bits { IsWide bits }
    requires written { IsOperand written }
    requires free { IsOperand free }
    requires taken { All IsOperand (slots_of taken.now) }
    ensures operand { IfOk result IsOperand }
    ensures bits { IfOk result (HasBits bits) }
    ensures gives { (p : ProgramView) (t : TableState) (took : List ℕ) (h : StageValues) → IfOk result (Gives part (wires_of wires.old.items) (wires_of wires.new.items) (written ∷ free ∷ slots_of taken.now)
        (λ v. ShowsTarget v p t took h site bits written free taken.now) (λ v. written_slot p t took h site) bits) }
{
    let mut slot = cut(alloc, wires, part, free, 0, bits)?;
    for own in taken {
        slot = where_pending(alloc, wires, part, bits, own.site, written, own.slot, slot)?;
    }
    let new = where_pending(alloc, wires, part, bits, site, written, free, slot)?;
    let in_slot = cut(alloc, wires, part, written, 0, 1)?;
    let index = cut(alloc, wires, part, written, 2, bits)?;
    let out = choose(alloc, wires, part, in_slot, index, new, bits)?;
    Ok(out)
}

/// Whether the operation at a site makes an entry of its own.
pub fn makes_entry<P: Copy>(
    alloc: Global,
    wires: &mut Vec<BlockWire<Name<P>>>,
    part: P,
    act: Act,
    site: u32,
    written: Operand<Name<P>>,
) -> Result<Operand<Name<P>>, AllocError>
    requires { IsOperand written }
    ensures operand { IfOk result IsOperand }
    ensures bits { IfOk result (HasBits 1) }
    ensures gives { (p : ProgramView) (t : TableState) (h : StageValues) → (site_at p.sites site).act ≡ act → IfOk result (Gives part (wires_of wires.old.items) (wires_of wires.new.items) (written ∷ [])
        (λ v. ShowsWritten v p t h site written) (λ v. bit (makes_entry p t h site)) 1) }
{
    match act {
        Act::Update => {
            let number = pending_number(site);
            let out = equal(alloc, wires, part, written, Operand::Known(number))?;
            Ok(out)
        }
        _ => Ok(Operand::Known(0)),
    }
}
