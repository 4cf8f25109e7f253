// The search.

ghost use Rattle.std.specs.Prelude.{IfOk, IfSome};
ghost use Rattle.cover_search.specs.Made.{HasNamesOf};

use crate::demands::Demands;
use crate::graph::Graph;
use crate::laying::{Laid, lay_out};
use crate::live::live_places;
use crate::made::{Found, made};
use crate::source::Source;
use crate::spots::MOST_LOOPS;
use crate::tracing::demand;
use crate::visiting::Seen;
use crate::walking::walk;
use std::alloc::{AllocError, Global};
use unfold_core::{Loop, loops, places};
use xdp_machine::bpf_isa::Insn;
use xdp_object::Program;
use xdp_state::BuildError;

/// The most walks of a search.
const MOST_WALKS: usize = 64;

/// What a walk has come to: all stops of a program, nothing since more is to be kept apart, or nothing at all.
#[derive(Copy, Clone)]
enum Walked {
    All,
    Again,
    Nothing,
}

// What is done where a stop was refused.
fn refused(
    alloc: Global,
    source: &Source<'_>,
    demands: &mut Demands,
    graph: &Graph,
) -> Result<Walked, AllocError> {
    let more = demand(alloc, source, demands, graph)?;
    if more {
        Ok(Walked::Again)
    } else {
        Ok(Walked::Nothing)
    }
}

// Walks once.
fn walk_once(
    alloc: Global,
    source: &Source<'_>,
    demands: &mut Demands,
    graph: &mut Graph,
) -> Result<Walked, AllocError> {
    graph.clear();
    let seen = walk(source, demands, graph)?;
    if demands.take_fresh() {
        return Ok(Walked::Again);
    }
    match seen {
        Seen::On => Ok(Walked::All),
        Seen::Refused => refused(alloc, source, demands, graph),
        Seen::Lost => Ok(Walked::Nothing),
    }
}

// Walks until there are all stops of a program, or nothing more to be kept apart. Whether there are.
fn walk_on(
    alloc: Global,
    source: &Source<'_>,
    demands: &mut Demands,
    graph: &mut Graph,
) -> Result<bool, AllocError> {
    for _walk in 0..MOST_WALKS {
        match walk_once(alloc, source, demands, graph)? {
            Walked::All => return Ok(true),
            Walked::Again => {}
            Walked::Nothing => return Ok(false),
        }
    }
    Ok(false)
}

// What is found for the program that is refused.
fn sought(alloc: Global, source: &Source<'_>) -> Result<Option<Laid>, AllocError> {
    let mut demands = Demands::none(alloc, source.units.len())?;
    let mut graph = Graph::new(alloc);
    if walk_on(alloc, source, &mut demands, &mut graph)? {
        let laid = lay_out(alloc, source, &graph.stops)?;
        Ok(Some(laid))
    } else {
        Ok(None)
    }
}

// The same, by its loops and its instructions by their places.
fn sought_in(
    alloc: Global,
    a: &Program,
    loops: &[Loop],
    units: &[Option<Insn>],
) -> Result<Option<Laid>, AllocError> {
    let live = live_places(alloc, units)?;
    let source = Source {
        program: a,
        units,
        loops,
        live: &live,
    };
    sought(alloc, &source)
}

// What is found, before the check. Nothing where there are too many loops, or one is crossed.
fn found(alloc: Global, a: &Program) -> Result<Option<Laid>, AllocError> {
    let all = match loops(alloc, a) {
        Ok(all) => all,
        Err(BuildError::Refused(_)) => return Ok(None),
        Err(BuildError::NoMemory) => return Err(AllocError),
    };
    if all.len() > MOST_LOOPS {
        return Ok(None);
    }
    let units = places(alloc, a)?;
    sought_in(alloc, a, &all, &units)
}

/// A program that may do what another one does, with its name and its maps, and no loop, and the place of that for each of its own: what
/// `covers` says of them is all that is known. There may be one where none is found.
pub fn find(alloc: Global, a: &Program) -> Result<Option<Found>, AllocError>
    ensures { IfOk result (λ found. IfSome found (λ f. HasNamesOf f.program a.now)) }
{
    match found(alloc, a)? {
        Some(laid) => made(alloc, a, laid),
        None => Ok(None),
    }
}
