//! Which operation commits: one after another, the first that is open.

ghost use Rattle.std.specs.Prelude.{List, [], ◌∷◌, ◌++◌, ◌≡◌, ◌+◌, ◌^◌, ◌<◌, ◌&&◌, nat_le, if◌then◌else◌, All, IfOk};
ghost use Rattle.hazard_core.specs.xdp_maps.declared.decl.MapDecl.{MapDecl};
ghost use Rattle.hazard_core.specs.cell_core.Cells.{bit, on};
ghost use Rattle.hazard_core.specs.cell_core.Sites.{ProgramView};
ghost use Rattle.hazard_core.specs.StageValues.{StageValues, writes};
ghost use Rattle.cell_nets.specs.Operands.{IsOperand, IsWide, number_in};
ghost use Rattle.cell_nets.specs.Wires.{wires_of, Gives};
ghost use Rattle.overlay_net.specs.SiteOperands.Sites.{operands_of, ShowsSite};
ghost use Rattle.overlay_net.specs.Reading.{IsSite};
ghost use Rattle.turn_net.specs.Actions.{may_commit};
ghost use Rattle.turn_net.specs.Nets.{site_read, all_read, HasOperands, IsNumbered, AreRecords, signals, signals_in, done_operand};
ghost use Rattle.turn_net.specs.Steps.{Leads, HasSteps, IsStep, HasChosen, AreChosen};

use crate::nets::{ActionNets, RecordNets};
use block_core::block::BlockWire;
use block_core::name::Name;
use cell_nets::operand::Operand;
use cell_nets::step_nets::{at_most, both, choose, without};
use overlay_net::writing::writes;
use std::alloc::{AllocError, Global};

/// What is known after an operation that has had its turn: whether it commits, whether a later one may, and how far the packet is then.
#[derive(Copy, Clone)]
pub struct Step<N> {
    pub chosen: Operand<N>,
    pub free: Operand<N>,
    pub done: Operand<N>,
}

/// Of each operation whether it commits, and what is known after the last.
#[derive(Drop)]
pub struct Choices<N> {
    pub chosen: Vec<Operand<N>>,
    pub last: Step<N>,
}

/// Before the first: one may commit where a packet is there that is not sent back, and the host does not write. Where none does, the packet is
/// as far as it was while the host writes, and else another one comes.
pub(crate) fn start<P: Copy>(
    alloc: Global,
    wires: &mut Vec<BlockWire<Name<P>>>,
    part: P,
    bits: u8,
    nets: &ActionNets<P>,
) -> Result<Step<Name<P>>, AllocError>
    requires { IsWide bits }
    ensures has { IfOk result (HasSteps bits) }
    ensures leads { IfOk result (λ s. Leads part (wires_of wires.old.items) (wires_of wires.new.items) (done_operand part bits ∷ signals nets.now) (s.free ∷ s.done ∷ []) (λ v. (number_in v s.free ≡ bit (may_commit (signals_in nets.now v))) × (number_in v s.done ≡ (if on (v.net nets.now.host).value then (v.net (Name.Register part 0)).value else 0)))) }
{
    let host = Operand::Net(nets.host, 1);
    let present = Operand::Net(nets.present, 1);
    let back = Operand::Net(nets.back, 1);
    let there = without(alloc, wires, part, present, back)?;
    let free = without(alloc, wires, part, there, host)?;
    let now = Operand::Net(Name::Register(part, 0), bits);
    let done = choose(alloc, wires, part, host, now, Operand::Known(0), bits)?;
    let chosen = Operand::Known(0);
    Ok(Step { chosen, free, done })
}

// Whether the operation at a site is open: the packet is not through with it, and it writes.
fn opened<P: Copy>(
    alloc: Global,
    wires: &mut Vec<BlockWire<Name<P>>>,
    part: P,
    done: Operand<Name<P>>,
    site: &RecordNets<'_, Name<P>>,
) -> Result<Operand<Name<P>>, AllocError>
    requires operands { All IsOperand (site_read site.now) }
    requires done { IsOperand done }
    ensures operand { IfOk result IsOperand }
    ensures given { (p : ProgramView) (decls : List MapDecl) (h : StageValues) → IsSite p decls site.now.number site.now.act site.now.decl.now → IfOk result (Gives part (wires_of wires.old.items) (wires_of wires.new.items) (done ∷ site_read site.now) (λ v. ShowsSite v p h site.now.number (operands_of site.now.nets.now)) (λ v. bit (nat_le (number_in v done) site.now.number && writes p decls h site.now.number)) 1) }
{
    let wrote = writes(alloc, wires, part, site.act, site.decl, site.nets)?;
    let number = Operand::Known(site.number as u64);
    let ahead = at_most(alloc, wires, part, done, number)?;
    let out = both(alloc, wires, part, ahead, wrote)?;
    Ok(out)
}

// The turn of one operation, by whether it is open.
fn take_turn<P: Copy>(
    alloc: Global,
    wires: &mut Vec<BlockWire<Name<P>>>,
    part: P,
    bits: u8,
    number: u32,
    opened: Operand<Name<P>>,
    before: Step<Name<P>>,
) -> Result<Step<Name<P>>, AllocError>
    requires bits { IsWide bits }
    requires number { number + 1 < 2 ^ bits }
    requires opened { IsOperand opened }
    requires before { HasSteps bits before }
    ensures has { IfOk result (HasSteps bits) }
    ensures leads { IfOk result (λ s. Leads part (wires_of wires.old.items) (wires_of wires.new.items) (before.free ∷ before.done ∷ opened ∷ []) (s.chosen ∷ s.free ∷ s.done ∷ []) (λ v. IsStep v number opened before s)) }
{
    let chosen = both(alloc, wires, part, before.free, opened)?;
    let free = without(alloc, wires, part, before.free, opened)?;
    let next = Operand::Known(number as u64 + 1);
    let done = choose(alloc, wires, part, chosen, next, before.done, bits)?;
    Ok(Step { chosen, free, done })
}

/// Of each operation whether it commits: the first open one, where one may.
pub(crate) fn choose_each<P: Copy>(
    alloc: Global,
    wires: &mut Vec<BlockWire<Name<P>>>,
    part: P,
    bits: u8,
    done: Operand<Name<P>>,
    records: &[RecordNets<'_, Name<P>>],
    start: Step<Name<P>>,
) -> Result<Choices<Name<P>>, AllocError>
    requires bits { IsWide bits }
    requires done { IsOperand done }
    requires records { All HasOperands records.now }
    requires numbers { All (IsNumbered bits) records.now }
    requires start { HasSteps bits start }
    ensures has { IfOk result (λ c. HasSteps bits c.last) }
    ensures chosen { IfOk result (λ c. HasChosen records.now c.chosen.items) }
    ensures leads { (p : ProgramView) (decls : List MapDecl) → AreRecords p decls records.now → IfOk result (λ c. Leads part (wires_of wires.old.items) (wires_of wires.new.items) (done ∷ start.free ∷ start.done ∷ all_read records.now) (c.last.free ∷ c.last.done ∷ c.chosen.items ++ done ∷ start.free ∷ start.done ∷ all_read records.now)
        (λ v. AreChosen p decls v (on (number_in v start.free)) (number_in v done) (number_in v start.done) records.now c.chosen.items c.last)) }
{
    let mut chosen = Vec::new(alloc);
    let mut last = start;
    for record in records {
        let opened = opened(alloc, wires, part, done, record)?;
        let next = take_turn(alloc, wires, part, bits, record.number, opened, last)?;
        chosen.push(next.chosen)?;
        last = next;
    }
    Ok(Choices { chosen, last })
}
