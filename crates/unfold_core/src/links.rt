// The edges of a graph, by the numbers of its nodes.

ghost use Rattle.std.specs.Prelude.{◌≡◌, ◌≤◌, ◌++◌, length, All, Some, IfOk, OnOk};
ghost use Rattle.xdp_machine.specs.bpf_isa.Text.{insn_at};
ghost use Rattle.kind_core.specs.declared.kind.Offsets.{Offsets};
ghost use Rattle.unfold_core.specs.Loops.{AreLoops};
ghost use Rattle.unfold_core.specs.Units.{ArePlaces};
ghost use Rattle.unfold_core.specs.Nodes.{IsNode};
ghost use Rattle.unfold_core.specs.Graphs.{AreOrdered, IsGraph, most_nodes};
ghost use Rattle.unfold_core.specs.Pending.{number_of};
ghost use Rattle.unfold_core.specs.Unfolding.{jumps_first, numbered, links};

use crate::edges::{Point, goes_next, insn_at, leave};
use crate::nesting::Loop;
use crate::nodes::{Node, comes_before};
use crate::pending::number_of;
use kind_core::decide;
use std::alloc::{AllocError, Global};
use xdp_machine::bpf_isa::Insn;
use xdp_object::Program;
use xdp_state::BuildError;

/// A present edge: the numbers of the nodes that it leaves and leads to, and whether it is that of a jump; else it leads to the next place.
#[derive(Copy, Clone, Debug, PartialEq, Eq)]
pub struct Edge {
    pub from: u32,
    pub taken: bool,
    pub to: u32,
}

// Whether the first edge of a node is that of its jump.
fn jumps_first(program: &Program, units: &[Option<Insn>], at: &Point) -> bool
    requires { ArePlaces program.now.insns units.now }
    ensures { result ≡ jumps_first at.now.kinds (insn_at program.now.insns at.now.node.place) }
{
    match insn_at(units, at.node.place() as usize) {
        Some(insn) => !goes_next(insn.op, decide(insn, &at.kinds)),
        None => false,
    }
}

// The number of the node at the end of an edge: mostly the next one.
fn number_behind(loops: &[Loop], nodes: &[Point], from: u32, node: &Node) -> usize
    requires nodes { AreOrdered loops.now nodes.now }
    requires node { IsNode loops.now node.now }
    ensures number { result ≡ number_of loops.now node.now nodes.now }
    ensures inside { result ≤ length nodes.now }
{
    let next = from as usize + 1;
    if next < nodes.len() {
        let at = &nodes[next].node;
        if !comes_before(loops, at, node) && !comes_before(loops, node, at) {
            return next;
        }
    }
    number_of(loops, nodes, node)
}

// Adds the edges from a node to these.
fn add_links(
    loops: &[Loop],
    nodes: &[Point],
    from: u32,
    jumps_first: bool,
    ends: &[Point],
    edges: &mut Vec<Edge>,
) -> Result<(), AllocError>
    requires few { length nodes.now ≤ most_nodes }
    requires nodes { AreOrdered loops.now nodes.now }
    requires ends { All (λ e. IsNode loops.now e.node) ends.now }
    ensures { OnOk result (edges.new.items ≡ edges.old.items ++ numbered loops.now nodes.now from jumps_first ends.now) }
{
    let mut taken = jumps_first;
    for end in ends {
        let to = number_behind(loops, nodes, from, &end.node) as u32;
        edges.push(Edge { from, taken, to })?;
        taken = true;
    }
    Ok(())
}

/// The edges of a graph, by the node that they leave, that to the next place first. (Its nodes pass, so only memory can be wanting.)
pub(crate) fn links(
    alloc: Global,
    program: &Program,
    units: &[Option<Insn>],
    loops: &[Loop],
    nodes: &[Point],
) -> Result<Vec<Edge>, BuildError>
    requires units { ArePlaces program.now.insns units.now }
    requires loops { AreLoops program.now.insns loops.now }
    requires graph { (offsets : Offsets) × IsGraph offsets program.now loops.now nodes.now }
    ensures { IfOk result (λ edges. edges.items ≡ links program.now loops.now nodes.now 0 nodes.now) }
{
    let mut edges = Vec::new(alloc);
    for number in 0..nodes.len() {
        let at = &nodes[number];
        let from = number as u32;
        let Ok(ends) = leave(alloc, program, units, loops, from, at) else {
            return Err(BuildError::NoMemory);
        };
        let first = jumps_first(program, units, at);
        if add_links(loops, nodes, from, first, &ends, &mut edges).is_err() {
            return Err(BuildError::NoMemory);
        }
    }
    Ok(edges)
}
