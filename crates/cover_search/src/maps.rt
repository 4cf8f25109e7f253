// The order in which a program refers to its maps.

use crate::graph::{Stop, stop_at};
use crate::source::{Source, insn_at, is_reference};

/// The map that a stop refers to.
pub(crate) fn map_at(source: &Source<'_>, stop: &Stop) -> Option<u64> {
    if stop.moves.is_some() || !is_reference(source, stop.spot.place) {
        return None;
    }
    match insn_at(source.units, stop.spot.place) {
        Some(insn) => Some(insn.imm.cast_unsigned()),
        None => None,
    }
}

// The map that the stop of a number refers to.
fn map_of(source: &Source<'_>, stops: &[Stop], n: u32) -> Option<u64> {
    match stop_at(stops, n) {
        Some(stop) => map_at(source, &stop),
        None => None,
    }
}

/// Whether stops in this order first refer to the maps in the order of their numbers, and to all of them.
pub(crate) fn are_in_order(source: &Source<'_>, stops: &[Stop], order: &[u32]) -> bool {
    let mut next = 0u64;
    for n in order {
        if let Some(map) = map_of(source, stops, *n) {
            if map > next {
                return false;
            }
            if map == next {
                next = next.saturating_add(1);
            }
        }
    }
    next == source.program.decls().len() as u64
}
