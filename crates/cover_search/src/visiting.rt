// Visiting a stop.

ghost use Rattle.xdp_machine.specs.bpf_isa.Spelling.{IsInsn};

use crate::agreeing::{is_open, kind_of};
use crate::demands::Demands;
use crate::graph::{Graph, Stop, Told, add_stop, arrive, link, new_stop};
use crate::source::{Source, insn_at, is_reference};
use crate::spots::{Spot, reached};
use crate::touching::touched;
use cover_core::{equal_side, side, sure_side};
use kind_core::{Kind, Kinds, Number, Why, allowed, decide, transfer};
use std::alloc::AllocError;
use unfold_core::Loop;
use xdp_machine::bpf_isa::{Insn, Op};

/// How a walk goes on behind a stop: on, not at all since the stop is refused by what is known there, or not at all for another reason.
#[derive(Copy, Clone)]
pub(crate) enum Seen {
    On,
    Refused,
    Lost,
}

// How a walk goes on behind a stop that is refused: other kinds might pass some tests.
fn refused(why: Why) -> Seen {
    match why {
        Why::Unset | Why::Mixed | Why::Unchecked | Why::Offset | Why::Use | Why::Argument => {
            Seen::Refused
        }
        _ => Seen::Lost,
    }
}

// Where an instruction at a spot leads on a side.
fn led_to(loops: &[Loop], from: &Spot, insn: &Insn, taken: bool) -> Option<Spot>
    requires { IsInsn insn.now }
{
    match side(from.place, insn, taken) {
        Some(to) => Some(reached(loops, from, u32::try_from(to).unwrap_or(u32::MAX))),
        None => None,
    }
}

/// Where a run goes on from a spot without a test: to another one, not from here, or nowhere.
enum Onward {
    To(Spot),
    Here,
    Nowhere,
}

fn hop(source: &Source<'_>, at: &Spot, kinds: &Kinds) -> Onward {
    let Some(insn) = insn_at(source.units, at.place) else {
        return Onward::Nowhere;
    };
    let Some(taken) = sure_side(&insn, kinds) else {
        return Onward::Here;
    };
    match led_to(source.loops, at, &insn, taken) {
        Some(spot) => Onward::To(spot),
        None => Onward::Nowhere,
    }
}

/// Where a run settles that goes on at a spot, while these kinds describe it.
pub(crate) fn settled(source: &Source<'_>, from: &Spot, kinds: &Kinds) -> Option<Spot> {
    let mut at = *from;
    for _hop in 0..source.units.len() {
        match hop(source, &at, kinds) {
            Onward::To(spot) => at = spot,
            Onward::Here => return Some(at),
            Onward::Nowhere => return None,
        }
    }
    None
}

// What a comparison tells on a side, if that is kept.
fn told(demands: &Demands, stop: &Stop, insn: &Insn, taken: bool) -> Option<Told> {
    if is_open(kind_of(&stop.kinds, insn.dst))
        && demands.is_told(stop.spot.place)
        && equal_side(insn.op) == Some(taken)
    {
        Some(Told {
            register: insn.dst,
            number: insn.imm,
        })
    } else {
        None
    }
}

// What is known once a number is moved.
fn moved(kinds: &Kinds, told: Told) -> Kinds {
    let mut after = *kinds;
    if told.register < 10 {
        let number = Number::Known(told.number.cast_unsigned());
        after.registers[told.register as usize] = Kind::Num(number);
    }
    after
}

// The stop of a move, behind which the way goes on at the same spot.
fn arrive_told(
    source: &Source<'_>,
    demands: &Demands,
    graph: &mut Graph,
    spot: &Spot,
    kinds: &Kinds,
    told: Told,
) -> Result<Option<u32>, AllocError> {
    let next = arrive(source, demands, graph, spot, &moved(kinds, told))?;
    let mut stop = new_stop(spot, kinds, Some(told));
    stop.next = next;
    let added = add_stop(&mut graph.stops, &stop)?;
    match (next, added) {
        (Some(_), Some(n)) => {
            graph.visited.push(n)?;
            Ok(Some(n))
        }
        _ => Ok(None),
    }
}

// The stop that an edge with these kinds leads to at a spot, behind what is told on it.
fn arrive_behind(
    source: &Source<'_>,
    demands: &Demands,
    graph: &mut Graph,
    spot: &Spot,
    kinds: &Kinds,
    told: Option<Told>,
) -> Result<Option<u32>, AllocError> {
    match told {
        Some(told) => arrive_told(source, demands, graph, spot, kinds, told),
        None => arrive(source, demands, graph, spot, kinds),
    }
}

// Where a run settles that leaves a stop on a side, while these kinds describe it.
fn settled_behind(
    source: &Source<'_>,
    stop: &Stop,
    insn: &Insn,
    kinds: &Kinds,
    taken: bool,
) -> Option<Spot>
    requires { IsInsn insn.now }
{
    match led_to(source.loops, &stop.spot, insn, taken) {
        Some(spot) => settled(source, &spot, kinds),
        None => None,
    }
}

// Whether an instruction goes on on a side.
fn goes(op: Op, decided: Option<bool>, taken: bool) -> bool {
    match op {
        Op::Exit => false,
        Op::Jump(_, _, _) => decided != Some(!taken),
        _ => !taken,
    }
}

// Leaves a stop on a side, if it goes on there. Whether that leads anywhere.
fn leave(
    source: &Source<'_>,
    demands: &Demands,
    graph: &mut Graph,
    n: u32,
    stop: &Stop,
    insn: &Insn,
    taken: bool,
) -> Result<bool, AllocError>
    requires { IsInsn insn.now }
{
    if !goes(insn.op, decide(insn, &stop.kinds), taken) {
        return Ok(true);
    }
    let is_ref = is_reference(source, stop.spot.place);
    let kinds = transfer(insn, &stop.kinds, source.program.decls(), n, is_ref, taken);
    let Some(spot) = settled_behind(source, stop, insn, &kinds, taken) else {
        return Ok(false);
    };
    let number = told(demands, stop, insn, taken);
    match arrive_behind(source, demands, graph, &spot, &kinds, number)? {
        Some(to) => {
            link(&mut graph.stops, n, taken, to);
            Ok(true)
        }
        None => Ok(false),
    }
}

// Leaves a stop on both sides.
fn leave_all(
    source: &Source<'_>,
    demands: &Demands,
    graph: &mut Graph,
    n: u32,
    stop: &Stop,
    insn: &Insn,
) -> Result<Seen, AllocError>
    requires { IsInsn insn.now }
{
    let next = leave(source, demands, graph, n, stop, insn, false)?;
    let jump = leave(source, demands, graph, n, stop, insn, true)?;
    if next && jump {
        Ok(Seen::On)
    } else {
        Ok(Seen::Lost)
    }
}

/// Visits a stop.
pub(crate) fn visit(
    source: &Source<'_>,
    demands: &mut Demands,
    graph: &mut Graph,
    n: u32,
    stop: &Stop,
) -> Result<Seen, AllocError> {
    let Some(insn) = insn_at(source.units, stop.spot.place) else {
        return Ok(Seen::Lost);
    };
    graph.visited.push(n)?;
    let decls = source.program.decls();
    demands.touch(touched(&insn, &stop.kinds, decls));
    match allowed(&insn, &stop.kinds, decls) {
        Ok(()) => leave_all(source, demands, graph, n, stop, &insn),
        Err(why) => Ok(refused(why)),
    }
}
