// What is live at each place: the registers and slots that some way on from there reads before it writes them.

ghost use Rattle.xdp_machine.specs.bpf_isa.Spelling.{IsInsn};

use crate::flow::flow_of;
use crate::locations::Locations;
use crate::source::{insn_at, set_at};
use std::alloc::{AllocError, Global};
use unfold_core::target;
use xdp_machine::bpf_isa::{Insn, Op};

// What is live at the place that a jump leads to.
fn live_at_target(insn: &Insn, place: u32, live: &[Locations]) -> Locations
    requires { IsInsn insn.now }
{
    match target(place, insn) {
        Some(to) => set_at(live, u32::try_from(to).unwrap_or(u32::MAX)),
        None => Locations::NONE,
    }
}

// What is live behind an instruction.
fn live_behind(insn: &Insn, place: u32, live: &[Locations]) -> Locations
    requires { IsInsn insn.now }
{
    let next = set_at(live, place.saturating_add(u32::from(insn.op.units())));
    match insn.op {
        Op::Exit => Locations::NONE,
        Op::Ja(_) => live_at_target(insn, place, live),
        Op::Jump(_, _, _) => next.with(live_at_target(insn, place, live)),
        _ => next,
    }
}

// What is live at a place, by what is live at others.
fn live_at(units: &[Option<Insn>], place: u32, live: &[Locations]) -> Locations {
    match insn_at(units, place) {
        Some(insn) => {
            let flow = flow_of(&insn);
            flow.reads
                .with(live_behind(&insn, place, live).without(flow.writes))
        }
        None => Locations::NONE,
    }
}

// Goes over all places from the last to the first. Whether anything more is live.
fn pass(units: &[Option<Insn>], live: &mut [Locations]) -> bool {
    let mut more = false;
    for back in 0..live.len() {
        let place = live.len() - 1 - back;
        let now = live_at(units, u32::try_from(place).unwrap_or(u32::MAX), live);
        if !now.without(live[place]).is_none() {
            live[place] = now;
            more = true;
        }
    }
    more
}

/// What is live at each place.
pub(crate) fn live_places(
    alloc: Global,
    units: &[Option<Insn>],
) -> Result<Vec<Locations>, AllocError> {
    let mut live = vec![in alloc; Locations::NONE; units.len()]?;
    for _pass in 0..units.len() {
        if !pass(units, &mut live) {
            break;
        }
    }
    Ok(live)
}
