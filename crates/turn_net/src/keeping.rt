//! The slots that updates of hashes took, after the clock.

ghost use Rattle.std.specs.Prelude.{◌≡◌, ◌++◌, ◌^◌, ◌<◌, All, length, IfOk};
ghost use Rattle.cell_nets.specs.Operands.{IsOperand, IsWide};
ghost use Rattle.cell_nets.specs.Wires.{wires_of, HasBits};
ghost use Rattle.turn_net.specs.Nets.{keeps, kept, all_read, HasOperands, IsKept, slot_operands};
ghost use Rattle.turn_net.specs.Steps.{Leads, AreSlots};

use crate::nets::RecordNets;
use block_core::block::BlockWire;
use block_core::name::Name;
use cell_nets::cell_core::site::Act;
use cell_nets::cell_core::xdp_state::xdp_maps::decl::MapKind;
use cell_nets::operand::Operand;
use cell_nets::step_nets::choose;
use std::alloc::{AllocError, Global};

/// Whether an operation keeps the slot that it takes: an update of a hash.
fn keeps<N: Copy>(site: &RecordNets<'_, N>) -> bool
    ensures { result ≡ keeps site.now }
{
    match site.act {
        Act::Update => matches!(site.decl.kind, MapKind::Hash),
        _ => false,
    }
}

/// The slot of each update that keeps one: that which it writes where it commits, else the one that it has.
pub(crate) fn slots<P: Copy>(
    alloc: Global,
    wires: &mut Vec<BlockWire<Name<P>>>,
    part: P,
    bits: u8,
    records: &[RecordNets<'_, Name<P>>],
    chosen: &[Operand<Name<P>>],
) -> Result<Vec<Operand<Name<P>>>, AllocError>
    requires bits { IsWide bits }
    requires count { length chosen.now ≡ length records.now }
    requires few { length records.now < 2 ^ 31 }
    requires records { All HasOperands records.now }
    requires chosen { All IsOperand chosen.now }
    requires kept { All (IsKept bits) records.now }
    ensures count { IfOk result (λ r. length r.items ≡ length (kept records.now)) }
    ensures operands { IfOk result (λ r. All IsOperand r.items) }
    ensures bits { IfOk result (λ r. All (HasBits bits) r.items) }
    ensures leads { IfOk result (λ r. Leads part (wires_of wires.old.items) (wires_of wires.new.items) (chosen.now ++ (all_read records.now ++ slot_operands part bits 1 (length (kept records.now)))) r.items (λ v. AreSlots v part records.now chosen.now r.items)) }
{
    let mut all = Vec::new(alloc);
    for i in 0..records.len() {
        let site = &records[i];
        if keeps(site) {
            let now = Operand::Net(Name::Register(part, 1 + all.len() as u32), bits);
            let next = choose(alloc, wires, part, chosen[i], site.target, now, bits)?;
            all.push(next)?;
        }
    }
    Ok(all)
}
