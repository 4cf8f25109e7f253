// Walking over a program.

use crate::demands::Demands;
use crate::graph::{Graph, MOST_STOPS, arrive, stop_at};
use crate::source::Source;
use crate::spots::Spot;
use crate::visiting::{Seen, settled, visit};
use kind_core::{Kinds, Offsets};
use std::alloc::AllocError;

/// What is found is for those who take offsets into the packet that are known.
const OFFSETS: Offsets = Offsets::Fixed;

// Goes to the first stop. Whether there is one.
fn begin(source: &Source<'_>, demands: &Demands, graph: &mut Graph) -> Result<bool, AllocError> {
    let kinds = Kinds::start(OFFSETS);
    match settled(source, &Spot::START, &kinds) {
        Some(spot) => {
            let first = arrive(source, demands, graph, &spot, &kinds)?;
            Ok(first.is_some())
        }
        None => Ok(false),
    }
}

// Visits the stop whose turn it is, if one is left.
fn visit_next(
    source: &Source<'_>,
    demands: &mut Demands,
    graph: &mut Graph,
) -> Result<Option<Seen>, AllocError> {
    let Some(n) = graph.pending.pop() else {
        return Ok(None);
    };
    match stop_at(&graph.stops, n) {
        Some(stop) => {
            let seen = visit(source, demands, graph, n, &stop)?;
            Ok(Some(seen))
        }
        None => Ok(Some(Seen::Lost)),
    }
}

/// Visits the stops of a program in their order, each behind all that lead to it: all of them, or up to the first that is refused.
pub(crate) fn walk(
    source: &Source<'_>,
    demands: &mut Demands,
    graph: &mut Graph,
) -> Result<Seen, AllocError> {
    if !begin(source, demands, graph)? {
        return Ok(Seen::Lost);
    }
    for _stop in 0..MOST_STOPS {
        match visit_next(source, demands, graph)? {
            Some(Seen::On) => {}
            Some(seen) => return Ok(seen),
            None => return Ok(Seen::On),
        }
    }
    Ok(Seen::Lost)
}
