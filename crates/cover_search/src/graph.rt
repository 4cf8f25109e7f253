// The stops of a walk, and those whose turn is to come.

ghost use Rattle.std.specs.Prelude.{◌≤◌, length};

use crate::agreeing::{agree, other_numbers};
use crate::demands::Demands;
use crate::locations::Locations;
use crate::source::{Source, set_at};
use crate::spots::{Spot, comes_before};
use kind_core::{Kinds, join_into};
use std::alloc::{AllocError, Global};
use unfold_core::{Loop, MOST_UNITS};

/// The most stops of a walk: each takes a unit at least.
pub(crate) const MOST_STOPS: usize = MOST_UNITS;

/// The number that a register is told to hold.
#[derive(Copy, Clone)]
pub(crate) struct Told {
    pub register: u8,
    pub number: i64,
}

/// An instruction of the program that is sought: that at a place, or before it the move of a number that a register is told to hold.
#[derive(Copy, Clone)]
pub(crate) struct Stop {
    pub spot: Spot,
    pub kinds: Kinds,
    pub moves: Option<Told>,
    /// Where edges met with numbers that were not the same.
    pub met: Locations,
    pub next: Option<u32>,
    pub jump: Option<u32>,
}

/// The stops of a walk by their numbers, those that were visited in turn, and those that are still to be, the last one first.
#[derive(Drop)]
pub(crate) struct Graph {
    pub stops: Vec<Stop>,
    pub visited: Vec<u32>,
    pub pending: Vec<u32>,
}

impl Graph {
    pub(crate) fn new(alloc: Global) -> Graph {
        Graph {
            stops: Vec::new(alloc),
            visited: Vec::new(alloc),
            pending: Vec::new(alloc),
        }
    }

    /// Takes all away.
    pub(crate) fn clear(&mut self) {
        self.stops.clear();
        self.visited.clear();
        self.pending.clear();
    }
}

/// A stop from which nothing leads on yet.
pub(crate) fn new_stop(spot: &Spot, kinds: &Kinds, moves: Option<Told>) -> Stop {
    Stop {
        spot: *spot,
        kinds: *kinds,
        moves,
        met: Locations::NONE,
        next: None,
        jump: None,
    }
}

/// The stop of a number.
pub(crate) fn stop_at(stops: &[Stop], n: u32) -> Option<Stop> {
    if (n as usize) < stops.len() {
        Some(stops[n as usize])
    } else {
        None
    }
}

/// Sets where a stop leads on a side.
pub(crate) fn link(stops: &mut [Stop], n: u32, taken: bool, to: u32) {
    if (n as usize) < stops.len() {
        let stop = &mut stops[n as usize];
        if taken {
            stop.jump = Some(to);
        } else {
            stop.next = Some(to);
        }
    }
}

// Whether an edge with these kinds may lead to a stop.
fn is_joined(
    stops: &[Stop],
    n: u32,
    spot: &Spot,
    kinds: &Kinds,
    matter: Locations,
    apart: Locations,
) -> bool {
    if (n as usize) < stops.len() {
        let stop = &stops[n as usize];
        stop.spot == *spot && agree(&stop.kinds, kinds, matter, apart)
    } else {
        false
    }
}

// The pending stop that an edge with these kinds leads to.
fn joined(
    source: &Source<'_>,
    demands: &Demands,
    graph: &Graph,
    spot: &Spot,
    kinds: &Kinds,
) -> Option<u32> {
    let matter = set_at(source.live, spot.place).with(demands.touched());
    let apart = demands.apart_at(spot.place);
    for n in &graph.pending {
        if is_joined(&graph.stops, *n, spot, kinds, matter, apart) {
            return Some(*n);
        }
    }
    None
}

// What is known on another edge meets at a stop.
fn meet(stops: &mut [Stop], n: u32, kinds: &Kinds) {
    if (n as usize) < stops.len() {
        let stop = &mut stops[n as usize];
        stop.met = stop.met.with(other_numbers(&stop.kinds, kinds));
        join_into(&mut stop.kinds, kinds);
    }
}

// Whether the stop of a number comes before a spot.
fn is_before(loops: &[Loop], stops: &[Stop], n: u32, spot: &Spot) -> bool {
    (n as usize) < stops.len() && comes_before(loops, &stops[n as usize].spot, spot)
}

// How many pending stops do not come before a spot.
fn turn_of(loops: &[Loop], stops: &[Stop], pending: &[u32], spot: &Spot) -> usize
    ensures { result ≤ length pending.now }
{
    for i in 0..pending.len() {
        if is_before(loops, stops, pending[i], spot) {
            return i;
        }
    }
    pending.len()
}

/// Adds a stop. There is none where there would be too many.
pub(crate) fn add_stop(stops: &mut Vec<Stop>, stop: &Stop) -> Result<Option<u32>, AllocError> {
    let n = stops.len();
    if n >= MOST_STOPS {
        return Ok(None);
    }
    stops.push(*stop)?;
    Ok(Some(n as u32))
}

// Adds a stop that is pending.
fn add_pending(
    graph: &mut Graph,
    loops: &[Loop],
    spot: &Spot,
    kinds: &Kinds,
) -> Result<Option<u32>, AllocError> {
    let turn = turn_of(loops, &graph.stops, &graph.pending, spot);
    let added = add_stop(&mut graph.stops, &new_stop(spot, kinds, None))?;
    if let Some(n) = added {
        graph.pending.insert(turn, n)?;
    }
    Ok(added)
}

/// The stop that an edge with these kinds leads to at a spot: one that is pending, or else a new one.
pub(crate) fn arrive(
    source: &Source<'_>,
    demands: &Demands,
    graph: &mut Graph,
    spot: &Spot,
    kinds: &Kinds,
) -> Result<Option<u32>, AllocError> {
    match joined(source, demands, graph, spot, kinds) {
        Some(n) => {
            meet(&mut graph.stops, n, kinds);
            Ok(Some(n))
        }
        None => add_pending(graph, source.loops, spot, kinds),
    }
}
