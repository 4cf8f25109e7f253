// What edges bring to a node.

ghost use Rattle.std.specs.Prelude.{◌≡◌, ◌<◌, IfOk, IfSome, All, length, Some, None, slice_index_or};
ghost use Rattle.xdp_state.specs.bpf_isa.Spelling.{IsInsn};
ghost use Rattle.unfold_core.specs.Units.{ArePlaces};
ghost use Rattle.row_rules.specs.NodeRows.Rows.{known_behind, arrival_of, arrivals_of};

use crate::node_rows::joining::Arrival;
use crate::node_rows::node::AfterNode;
use kind_core::{Kinds, transfer};
use std::alloc::{AllocError, Global};
use unfold_core::{Edge, Point};
use xdp_object::Program;
use xdp_state::bpf_isa::Insn;

/// The instruction at a node.
pub(crate) fn insn_at(units: &[Option<Insn>], at: &Point) -> Option<Insn>
    requires { All (λ unit. IfSome unit IsInsn) units.now }
    ensures found { result ≡ slice_index_or units.now at.now.node.place None }
    ensures legal { IfSome result IsInsn }
{
    let place = at.node.place() as usize;
    if place < units.len() {
        units[place]
    } else {
        None
    }
}

/// What is known after an instruction at a node, on one of its edges.
pub(crate) fn known_behind(
    program: &Program,
    insn: &Insn,
    at: &Point,
    node: u32,
    taken: bool,
) -> Kinds
    requires { IsInsn insn.now }
    ensures { result ≡ known_behind program.now at.now node taken (Some insn.now) }
{
    let is_ref = program.refs().contains(&at.node.place());
    transfer(insn, &at.kinds, program.decls(), node, is_ref, taken)
}

// What an edge brings.
fn arrival(
    program: &Program,
    units: &[Option<Insn>],
    nodes: &[Point],
    passed: &[AfterNode],
    edge: &Edge,
) -> Arrival
    requires units { ArePlaces program.now.insns units.now }
    requires node { edge.now.from < length nodes.now }
    requires passed { edge.now.from < length passed.now }
    ensures { result ≡ arrival_of program.now nodes.now passed.now edge.now }
{
    let at = &nodes[edge.from as usize];
    let behind = passed[edge.from as usize];
    let kinds = match insn_at(units, at) {
        Some(insn) => known_behind(program, &insn, at, edge.from, edge.taken),
        None => at.kinds,
    };
    Arrival {
        row: behind.edge,
        kinds,
        origins: behind.origins,
    }
}

/// What the edges bring that lead to a node.
pub(crate) fn arrivals(
    alloc: Global,
    program: &Program,
    units: &[Option<Insn>],
    nodes: &[Point],
    edges: &[Edge],
    passed: &[AfterNode],
    node: u32,
) -> Result<Vec<Arrival>, AllocError>
    requires units { ArePlaces program.now.insns units.now }
    requires up { All (λ e. (e.from < e.to) × (e.to < length nodes.now)) edges.now }
    requires passed { length passed.now ≡ node }
    ensures { IfOk result (λ es. es.items ≡ arrivals_of program.now nodes.now edges.now passed.now node) }
{
    let mut arrivals = Vec::new(alloc);
    for edge in edges {
        if edge.to == node {
            arrivals.push(arrival(program, units, nodes, passed, edge))?;
        }
    }
    Ok(arrivals)
}
