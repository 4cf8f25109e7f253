//! The block.

ghost use Rattle.std.specs.Prelude.{List, [], ◌∷◌, ◌≡◌, ◌^◌, ◌<◌, ◌&&◌, ◌||◌, not, All, length, IfOk};
ghost use Rattle.block_core.specs.View.{block_of};
ghost use Rattle.hazard_core.specs.xdp_maps.declared.decl.MapDecl.{MapDecl};
ghost use Rattle.hazard_core.specs.cell_core.Cells.{bit, on};
ghost use Rattle.hazard_core.specs.cell_core.Sites.{ProgramView};
ghost use Rattle.cell_nets.specs.Operands.{IsOperand, IsWide, number_in};
ghost use Rattle.cell_nets.specs.Wires.{wires_of};
ghost use Rattle.turn_net.specs.Nets.{HasOperands, IsNumbered, IsKept, AreRecords};
ghost use Rattle.turn_net.specs.Steps.{Leads, HasDecided, Decides, taken_values};
ghost use Rattle.turn_net.specs.Action.{IsAction};

use crate::choosing::{choose_each, start};
use crate::keeping::slots;
use crate::nets::{Action, ActionNets, ActionShape, RecordNets};
use block_core::block::BlockWire;
use block_core::name::{Name, Part};
use cell_nets::operand::Operand;
use cell_nets::operand_blocks::registers::{Taken, registered};
use cell_nets::operand_blocks::wiring::named;
use cell_nets::step_nets::{choose, without};
use std::alloc::{AllocError, Global};

/// What is decided in a clock: what the part shows, and what its registers take.
#[derive(Drop)]
struct Decided<N> {
    chosen: Vec<Operand<N>>,
    commits: N,
    stays: N,
    done: Operand<N>,
    slots: Vec<Operand<N>>,
}

/// Whether one commits, and whether the packets stay.
#[derive(Copy, Clone)]
struct Told<N> {
    commits: N,
    stays: N,
}

// One commits where one might before the first and none may after the last. The packets stay where one does or the host writes.
fn tell<P: Copy>(
    alloc: Global,
    wires: &mut Vec<BlockWire<Name<P>>>,
    part: P,
    host: Name<P>,
    first: Operand<Name<P>>,
    last: Operand<Name<P>>,
) -> Result<Told<Name<P>>, AllocError>
    requires first { IsOperand first }
    requires last { IsOperand last }
    ensures { IfOk result (λ n. Leads part (wires_of wires.old.items) (wires_of wires.new.items) (Operand.Net host 1 ∷ first ∷ last ∷ []) (Operand.Net n.commits 1 ∷ Operand.Net n.stays 1 ∷ []) (λ v. ((v.net n.commits).value ≡ bit (on (number_in v first) && not (on (number_in v last)))) × ((v.net n.stays).value ≡ bit ((on (number_in v first) && not (on (number_in v last))) || on (v.net host).value)))) }
{
    let one = without(alloc, wires, part, first, last)?;
    let commits = named(alloc, wires, part, one, 1)?;
    let other = Operand::Net(host, 1);
    let both = choose(alloc, wires, part, one, Operand::Known(1), other, 1)?;
    let stays = named(alloc, wires, part, both, 1)?;
    Ok(Told { commits, stays })
}

// All that is decided.
fn decide<P: Copy>(
    alloc: Global,
    wires: &mut Vec<BlockWire<Name<P>>>,
    part: P,
    shape: &ActionShape,
    nets: &ActionNets<P>,
    records: &[RecordNets<'_, Name<P>>],
) -> Result<Decided<Name<P>>, AllocError>
    requires bits { IsWide shape.now.bits }
    requires slot_bits { IsWide shape.now.slot_bits }
    requires few { length records.now < 2 ^ 31 }
    requires operands { All HasOperands records.now }
    requires numbers { All (IsNumbered shape.now.bits) records.now }
    requires kept { All (IsKept shape.now.slot_bits) records.now }
    ensures has { IfOk result (λ r. HasDecided shape.now records.now r.chosen.items r.done r.slots.items) }
    ensures leads { (p : ProgramView) (decls : List MapDecl) → AreRecords p decls records.now → IfOk result (λ r. Decides p decls part shape.now nets.now records.now (wires_of wires.old.items) (wires_of wires.new.items) r.chosen.items r.commits r.stays r.done r.slots.items) }
{
    let first = start(alloc, wires, part, shape.bits, nets)?;
    let now = Operand::Net(Name::Register(part, 0), shape.bits);
    let each = choose_each(alloc, wires, part, shape.bits, now, records, first)?;
    let last = each.last;
    let chosen = each.chosen;
    let told = tell(alloc, wires, part, nets.host, first.free, last.free)?;
    let slots = slots(alloc, wires, part, shape.slot_bits, records, &chosen)?;
    Ok(Decided {
        chosen,
        commits: told.commits,
        stays: told.stays,
        done: last.done,
        slots,
    })
}

// What the registers take: how far the packet is, and after it the slots that updates took.
fn taken<N: Copy>(
    alloc: Global,
    shape: &ActionShape,
    done: Operand<N>,
    slots: &[Operand<N>],
) -> Result<Vec<Taken<N>>, AllocError>
    ensures { IfOk result (λ r. r.items ≡ taken_values shape.now done slots.now) }
{
    let mut all = Vec::new(alloc);
    all.push(Taken {
        operand: done,
        width: shape.bits,
    })?;
    for slot in slots {
        all.push(Taken {
            operand: *slot,
            width: shape.slot_bits,
        })?;
    }
    Ok(all)
}

/// The block that says which operation of the packet at the commit place commits in a clock: the first open one of these records, where a packet is
/// there that is not sent back, and the host does not write.
///
/// It reads of other parts what stands for the cells of the sites and for the slots that their operations write, and the nets of `nets`. Its register 0
/// says how far the packet is: the operations of sites below it are through. After it there is one for each update of a hash, in the order of the
/// records, for the slot that it took.
pub fn action<P: Part>(
    alloc: Global,
    part: P,
    shape: &ActionShape,
    nets: &ActionNets<P>,
    records: &[RecordNets<'_, Name<P>>],
) -> Result<Action<P>, AllocError>
    requires bits { IsWide shape.now.bits }
    requires slot_bits { IsWide shape.now.slot_bits }
    requires few { length records.now < 2 ^ 31 }
    requires operands { All HasOperands records.now }
    requires numbers { All (IsNumbered shape.now.bits) records.now }
    requires kept { All (IsKept shape.now.slot_bits) records.now }
    ensures { (p : ProgramView) (decls : List MapDecl) → AreRecords p decls records.now → IfOk result (λ t. IsAction p decls part shape.now nets.now records.now (block_of t.block) t.chosen.items t.commits t.stays) }
{
    let mut wires = Vec::new(alloc);
    let made = decide(alloc, &mut wires, part, shape, nets, records)?;
    let takes = taken(alloc, shape, made.done, &made.slots)?;
    let block = registered(alloc, wires, &takes)?;
    Ok(Action {
        block,
        chosen: made.chosen,
        commits: made.commits,
        stays: made.stays,
    })
}
