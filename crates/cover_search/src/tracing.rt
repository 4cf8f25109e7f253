// Tracing a refusal back to numbers that met.

ghost use Rattle.xdp_machine.specs.bpf_isa.Spelling.{IsInsn};

use crate::agreeing::{is_open, kind_of};
use crate::demands::Demands;
use crate::flow::flow_of;
use crate::graph::{Graph, Stop};
use crate::locations::Locations;
use crate::source::{Source, insn_at, set_at};
use cover_core::equal_side;
use kind_core::{Kind, decide};
use std::alloc::{AllocError, Global};
use xdp_machine::bpf_isa::{Insn, Op, Src};

// The set of a stop that one leads to.
fn set_behind(sets: &[Locations], to: Option<u32>) -> Locations {
    match to {
        Some(n) => set_at(sets, n),
        None => Locations::NONE,
    }
}

// What is wanted before an instruction, for what is wanted behind it.
fn wanted_by(insn: &Insn, behind: Locations) -> Locations {
    let flow = flow_of(insn);
    let passed = behind.without(flow.writes);
    if behind.common(flow.writes).is_none() {
        passed
    } else {
        passed.with(flow.source)
    }
}

// What is wanted before a stop, for what is wanted behind it.
fn wanted_before(source: &Source<'_>, stop: &Stop, behind: Locations) -> Locations {
    match (stop.moves, insn_at(source.units, stop.spot.place)) {
        (Some(told), _) => behind.without(Locations::register(told.register)),
        (None, Some(insn)) => wanted_by(&insn, behind),
        (None, None) => Locations::NONE,
    }
}

// The side of a stop on which a comparison tells a number.
fn telling_side(stop: &Stop, insn: &Insn) -> Option<u32> {
    match equal_side(insn.op) {
        Some(true) => stop.jump,
        Some(false) => stop.next,
        None => None,
    }
}

// Whether a comparison tells a number that is wanted behind it.
fn tells(source: &Source<'_>, stop: &Stop, wanted: &[Locations]) -> bool {
    match insn_at(source.units, stop.spot.place) {
        Some(insn) => {
            stop.moves.is_none()
                && is_open(kind_of(&stop.kinds, insn.dst))
                && set_behind(wanted, telling_side(stop, &insn)).has_register(insn.dst)
        }
        None => false,
    }
}

// Goes over one stop: what is wanted before it, and what is to be kept apart there.
fn trace_stop(
    source: &Source<'_>,
    demands: &mut Demands,
    stop: &Stop,
    wanted: &mut [Locations],
    n: u32,
    first: Locations,
) {
    let behind = set_behind(wanted, stop.next).with(set_behind(wanted, stop.jump));
    let before = first.with(wanted_before(source, stop, behind));
    if (n as usize) < wanted.len() {
        wanted[n as usize] = before;
    }
    demands.keep_apart(stop.spot.place, stop.met.common(before));
    if tells(source, stop, wanted) {
        demands.tell(stop.spot.place);
    }
}

// Goes over the stops of these numbers, the last one first, where something is wanted at first.
fn trace_all(
    source: &Source<'_>,
    demands: &mut Demands,
    stops: &[Stop],
    visited: &[u32],
    wanted: &mut [Locations],
    seeds: Locations,
) {
    let mut first = seeds;
    for back in 0..visited.len() {
        let n = visited[visited.len() - 1 - back];
        if (n as usize) < stops.len() {
            trace_stop(source, demands, &stops[n as usize], wanted, n, first);
            first = Locations::NONE;
        }
    }
}

fn is_number(kind: Kind) -> bool {
    matches!(kind, Kind::Num(_))
}

// Whether an instruction compares numbers.
fn compares_numbers(stop: &Stop, insn: &Insn) -> bool {
    let right = match insn.op {
        Op::Jump(_, _, Src::K) => true,
        Op::Jump(_, _, Src::X) => is_number(kind_of(&stop.kinds, insn.src)),
        _ => false,
    };
    right && is_number(kind_of(&stop.kinds, insn.dst))
}

// What a comparison of numbers reads, where it is not decided.
fn compared(stop: &Stop, insn: &Insn) -> Locations
    requires { IsInsn insn.now }
{
    if compares_numbers(stop, insn) && decide(insn, &stop.kinds).is_none() {
        flow_of(insn).reads
    } else {
        Locations::NONE
    }
}

// What is traced from a stop: all that the refused instruction reads, which is the last one, or what a comparison does.
fn seeds_at(source: &Source<'_>, stop: &Stop, is_last: bool) -> Locations {
    match insn_at(source.units, stop.spot.place) {
        Some(insn) => {
            if is_last {
                flow_of(&insn).reads
            } else if stop.moves.is_none() {
                compared(stop, &insn)
            } else {
                Locations::NONE
            }
        }
        None => Locations::NONE,
    }
}

// Whether a stop is among these.
fn is_among(marks: &[bool], to: Option<u32>) -> bool {
    match to {
        Some(n) => (n as usize) < marks.len() && marks[n as usize],
        None => false,
    }
}

// Marks a stop that leads to the last one, and gives what is traced from it.
fn seeds_of(
    source: &Source<'_>,
    stop: &Stop,
    leads: &mut [bool],
    n: u32,
    is_last: bool,
) -> Locations {
    if !is_last && !is_among(leads, stop.next) && !is_among(leads, stop.jump) {
        return Locations::NONE;
    }
    if (n as usize) < leads.len() {
        leads[n as usize] = true;
    }
    seeds_at(source, stop, is_last)
}

// Traces from the last of the stops of these numbers. Whether anything more is to be kept apart.
fn demand_at(
    source: &Source<'_>,
    demands: &mut Demands,
    stops: &[Stop],
    visited: &[u32],
    wanted: &mut [Locations],
    seeds: Locations,
) -> bool {
    if seeds.is_none() {
        return false;
    }
    for set in wanted.iter_mut() {
        *set = Locations::NONE;
    }
    trace_all(source, demands, stops, visited, wanted, seeds);
    demands.take_fresh()
}

// Traces from what the last of the stops of these numbers reads, or else from the nearest comparison before it.
fn demand_all(
    source: &Source<'_>,
    demands: &mut Demands,
    stops: &[Stop],
    visited: &[u32],
    leads: &mut [bool],
    wanted: &mut [Locations],
) -> bool {
    for back in 0..visited.len() {
        let n = visited[visited.len() - 1 - back];
        let up_to = &visited[..visited.len() - back];
        if (n as usize) < stops.len() {
            let seeds = seeds_of(source, &stops[n as usize], leads, n, back == 0);
            if demand_at(source, demands, stops, up_to, wanted, seeds) {
                return true;
            }
        }
    }
    false
}

/// Keeps apart the numbers that met on the ways to what the last stop reads, or else to what the nearest comparison before it does. Whether
/// there were any.
pub(crate) fn demand(
    alloc: Global,
    source: &Source<'_>,
    demands: &mut Demands,
    graph: &Graph,
) -> Result<bool, AllocError> {
    let mut leads = vec![in alloc; false; graph.stops.len()]?;
    let mut wanted = vec![in alloc; Locations::NONE; graph.stops.len()]?;
    Ok(demand_all(
        source,
        demands,
        &graph.stops,
        &graph.visited,
        &mut leads,
        &mut wanted,
    ))
}
