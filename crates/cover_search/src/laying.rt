// Laying stops out as a program.

use crate::graph::{Stop, Told, stop_at};
use crate::maps::{are_in_order, map_at};
use crate::orders::laid_order;
use crate::source::{Source, insn_at};
use std::alloc::{AllocError, Global};
use xdp_machine::bpf_isa::{AluCode, Insn, Op, Src, Width};

/// The instructions of a program, its references, and for each place the origin.
#[derive(Drop)]
pub(crate) struct Laid {
    pub insns: Vec<Insn>,
    pub refs: Vec<u32>,
    pub origin: Vec<u32>,
}

impl Laid {
    fn new(alloc: Global) -> Laid {
        Laid {
            insns: Vec::new(alloc),
            refs: Vec::new(alloc),
            origin: Vec::new(alloc),
        }
    }

    // The next place.
    fn place(&self) -> u32 {
        u32::try_from(self.origin.len()).unwrap_or(u32::MAX)
    }

    // Adds an instruction with its origin.
    fn push(&mut self, insn: &Insn, origin: u32) -> Result<(), AllocError> {
        self.insns.push(*insn)?;
        self.origin.push(origin)?;
        if insn.op.units() == 2 {
            self.origin.push(origin)?;
        }
        Ok(())
    }
}

fn plain(op: Op, dst: u8, offset: i16, imm: i64) -> Insn {
    Insn {
        op,
        dst,
        src: 0,
        offset,
        imm,
    }
}

fn move_of(told: Told) -> Insn {
    let op = Op::Alu(Width::Bits64, AluCode::Mov, Src::K);
    plain(op, told.register, 0, told.number)
}

// How far a jump at a place leads. Too far is no way, which the check of the program finds.
fn distance(from: u32, to: u32) -> i16 {
    i16::try_from(i64::from(to) - i64::from(from) - 1).unwrap_or(0)
}

// An instruction at a place, a conditional jump to where it is to lead.
fn placed(insn: Insn, place: u32, jump: Option<u32>) -> Insn {
    let offset = match (insn.op, jump) {
        (Op::Jump(_, _, _), Some(to)) => distance(place, to),
        (Op::Jump(_, _, _), None) => 0,
        _ => insn.offset,
    };
    Insn { offset, ..insn }
}

// The instruction of a stop, a jump to where it leads to.
fn insn_of(source: &Source<'_>, stop: &Stop, place: u32, jump: Option<u32>) -> Option<Insn> {
    match (stop.moves, insn_at(source.units, stop.spot.place)) {
        (Some(told), _) => Some(move_of(told)),
        (None, Some(insn)) => Some(placed(insn, place, jump)),
        (None, None) => None,
    }
}

// The number of the stop behind one in the order.
fn behind(order: &[u32], k: usize) -> Option<u32> {
    let next = k.saturating_add(1);
    if next < order.len() {
        Some(order[next])
    } else {
        None
    }
}

// How many units a stop takes.
fn units_of(source: &Source<'_>, stop: &Stop, behind: Option<u32>) -> u32 {
    let own = match (stop.moves, insn_at(source.units, stop.spot.place)) {
        (None, Some(insn)) => u32::from(insn.op.units()),
        _ => 1,
    };
    if stop.next.is_some() && stop.next != behind {
        own.saturating_add(1)
    } else {
        own
    }
}

// The place of each stop, from a first one on.
fn places_of(
    alloc: Global,
    source: &Source<'_>,
    stops: &[Stop],
    order: &[u32],
    first: u32,
) -> Result<Vec<u32>, AllocError> {
    let mut places = vec![in alloc; 0; stops.len()]?;
    let mut place = first;
    for k in 0..order.len() {
        let n = order[k] as usize;
        if n < places.len() && n < stops.len() {
            places[n] = place;
            let units = units_of(source, &stops[n], behind(order, k));
            place = place.saturating_add(units);
        }
    }
    Ok(places)
}

fn place_at(places: &[u32], stop: Option<u32>) -> Option<u32> {
    match stop {
        Some(n) if (n as usize) < places.len() => Some(places[n as usize]),
        _ => None,
    }
}

// Adds a jump to where a stop leads without one, where that is not behind it.
fn push_goto(
    laid: &mut Laid,
    stops: &[Stop],
    places: &[u32],
    stop: &Stop,
    behind: Option<u32>,
) -> Result<(), AllocError> {
    let next = match stop.next {
        Some(n) if stop.next != behind => stop_at(stops, n),
        _ => None,
    };
    match (next, place_at(places, stop.next)) {
        (Some(next), Some(to)) => {
            let op = Op::Ja(Width::Bits64);
            let insn = plain(op, 0, distance(laid.place(), to), 0);
            laid.push(&insn, next.spot.place)
        }
        _ => Ok(()),
    }
}

// Adds a stop.
fn push_stop(
    source: &Source<'_>,
    laid: &mut Laid,
    stops: &[Stop],
    places: &[u32],
    stop: &Stop,
    behind: Option<u32>,
) -> Result<(), AllocError> {
    let place = laid.place();
    if let Some(insn) = insn_of(source, stop, place, place_at(places, stop.jump)) {
        if map_at(source, stop).is_some() {
            laid.refs.push(place)?;
        }
        laid.push(&insn, stop.spot.place)?;
        push_goto(laid, stops, places, stop, behind)?;
    }
    Ok(())
}

// Adds references to all maps in their order, and a jump over them.
fn push_references(laid: &mut Laid, maps: u32, origin: u32) -> Result<(), AllocError> {
    let over = i16::try_from(maps.saturating_mul(2)).unwrap_or(0);
    laid.push(&plain(Op::Ja(Width::Bits64), 0, over, 0), origin)?;
    for map in 0..maps {
        let place = laid.place();
        laid.refs.push(place)?;
        laid.push(&plain(Op::LoadImm, 0, 0, i64::from(map)), origin)?;
    }
    Ok(())
}

// Adds the stops in their order.
fn push_stops(
    alloc: Global,
    source: &Source<'_>,
    laid: &mut Laid,
    stops: &[Stop],
    order: &[u32],
) -> Result<(), AllocError> {
    let places = places_of(alloc, source, stops, order, laid.place())?;
    for k in 0..order.len() {
        if let Some(stop) = stop_at(stops, order[k]) {
            push_stop(source, laid, stops, &places, &stop, behind(order, k))?;
        }
    }
    Ok(())
}

// The place of the first stop.
fn first_place(stops: &[Stop]) -> u32 {
    match stop_at(stops, 0) {
        Some(stop) => stop.spot.place,
        None => 0,
    }
}

/// Lays out stops, the first one first. A program numbers its maps by their first references, so references may come before it.
pub(crate) fn lay_out(
    alloc: Global,
    source: &Source<'_>,
    stops: &[Stop],
) -> Result<Laid, AllocError> {
    let order = laid_order(alloc, stops)?;
    let mut laid = Laid::new(alloc);
    if !are_in_order(source, stops, &order) {
        let maps = u32::try_from(source.program.decls().len()).unwrap_or(u32::MAX);
        push_references(&mut laid, maps, first_place(stops))?;
    }
    push_stops(alloc, source, &mut laid, stops, &order)?;
    Ok(laid)
}
