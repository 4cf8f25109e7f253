// Programs without loops.

ghost use Rattle.std.specs.Prelude.{◌≡◌, ◌⊎◌, IfErr, IsErrOf};
ghost use Rattle.xdp_state.specs.declared.refusal.Refusal.{Refusal};
ghost use Rattle.xdp_state.specs.declared.refusal.BuildError.TheVariants.{Refused};
ghost use Rattle.unfold_core.specs.Loops.{AreLoops};
ghost use Rattle.unfold_core.specs.Units.{ArePlaces};
ghost use Rattle.unfold_core.specs.Graphs.{Walks};
ghost use Rattle.unfold_core.specs.Unfolding.{Unfolds};
ghost use Rattle.unfold_core.specs.Acceptance.{IsAccepted, IsFirstRefusal};

use crate::edges::{Point, leave, refused};
use crate::links::{Edge, links};
use crate::nesting::{Loop, loops};
use crate::pending::{add_ends, at_start};
use crate::units::places;
use kind_core::Offsets;
use std::alloc::Global;
use xdp_machine::bpf_isa::Insn;
use xdp_object::Program;
use xdp_state::{BuildError, Why};

/// The most nodes of a program.
pub const MOST_NODES: u32 = 16_384;

/// A program without loops.
#[derive(Debug, Drop)]
pub struct Unfolded {
    /// Whether offsets into the packet were let vary.
    pub offsets: Offsets,
    /// The loops of the program, by their heads.
    pub loops: Vec<Loop>,
    /// The nodes in unfolded order, with what is known at each.
    pub nodes: Vec<Point>,
    /// The present edges, by the node that they leave, that to the next place first.
    pub edges: Vec<Edge>,
}

// The nodes of a program in unfolded order, or the first that is refused.
fn walk(
    alloc: Global,
    program: &Program,
    offsets: Offsets,
    units: &[Option<Insn>],
    loops: &[Loop],
) -> Result<Vec<Point>, BuildError>
    requires units { ArePlaces program.now.insns units.now }
    requires loops { AreLoops program.now.insns loops.now }
    ensures { Walks offsets program.now loops.now result }
{
    let mut nodes = Vec::new(alloc);
    let Ok(mut pending) = at_start(alloc, offsets, loops) else {
        return Err(BuildError::NoMemory);
    };
    for number in 0..MOST_NODES {
        let at = match pending.pop_front() {
            Some(at) => at,
            None => return Ok(nodes),
        };
        let ends = match leave(alloc, program, units, loops, number, &at) {
            Ok(ends) => ends,
            Err(e) => return Err(e),
        };
        let Ok(()) = add_ends(loops, &mut pending, ends) else {
            return Err(BuildError::NoMemory);
        };
        let Ok(()) = nodes.push(at) else {
            return Err(BuildError::NoMemory);
        };
    }
    match pending.pop_front() {
        Some(at) => Err(refused(at.node.place(), Why::Size)),
        None => Ok(nodes),
    }
}

// The loops of a program, the nodes of its graph and its edges, or its first refusal.
fn unfold_parts(alloc: Global, program: &Program, offsets: Offsets) -> Result<Unfolded, BuildError>
    ensures { Unfolds offsets program.now result }
{
    let found = loops(alloc, program)?;
    let Ok(units) = places(alloc, program) else {
        return Err(BuildError::NoMemory);
    };
    let nodes = walk(alloc, program, offsets, &units, &found)?;
    match links(alloc, program, &units, &found, &nodes) {
        Ok(edges) => Ok(Unfolded {
            offsets,
            loops: found,
            nodes,
            edges,
        }),
        Err(_) => Err(BuildError::NoMemory),
    }
}

/// Unfolds a program, with offsets into the packet that may vary or not. Without want of memory a refusal comes exactly where the
/// program is refused, and is the first one: the first place that its loops or its size refuse, else the first node, in unfolded
/// order, that is refused: node 16,384, counted from 0, by `Size` before any test of its own, and each other one by the first test
/// that it fails.
pub fn unfold(alloc: Global, program: &Program, offsets: Offsets) -> Result<Unfolded, BuildError>
    ensures unfolds { Unfolds offsets program.now result }
    ensures refused { (r : Refusal) → IsFirstRefusal offsets program.now r → IsErrOf result (BuildError.Refused r) ⊎ IsErrOf result BuildError.NoMemory }
    ensures accepted { IsAccepted offsets program.now → IfErr result (λ e. e ≡ BuildError.NoMemory) }
{
    unfold_parts(alloc, program, offsets)
}
