//! Cases of the graph of a program.

use crate::cases::refusal::push_refusal;
use anyhow::Result;
use kind_core::Offsets;
use std::alloc::{AllocError, Global};
use std::fmt::Write;
use unfold_core::{Edge, Node, Unfolded, unfold};
use xdp_object::Program;

/// Adds the nodes and the edges of a program, or how many there are; or its refusal.
pub(crate) fn answer(
    alloc: Global,
    program: &Program,
    counted: bool,
    out: &mut String,
) -> Result<()> {
    match unfold(alloc, program, Offsets::Fixed) {
        Ok(graph) if counted => {
            let (nodes, edges) = (graph.nodes.len(), graph.edges.len());
            Ok(write!(out, "{nodes} nodes, {edges} edges")?)
        }
        Ok(graph) => Ok(push_graph(&graph, out)?),
        Err(e) => push_refusal(out, e),
    }
}

// Adds the nodes, and the edges by the numbers of the nodes.
fn push_graph(graph: &Unfolded, out: &mut String) -> Result<(), AllocError> {
    out.push_str("nodes")?;
    for at in &graph.nodes {
        push_node(&at.node, out)?;
    }
    out.push_str(", edges")?;
    for edge in &graph.edges {
        push_edge(*edge, out)?;
    }
    Ok(())
}

// Adds the place of a node, and its copy of each loop.
fn push_node(node: &Node, out: &mut String) -> Result<(), AllocError> {
    write!(out, " {}", node.place())?;
    for copy in node.copies() {
        write!(out, ".{copy}")?;
    }
    Ok(())
}

// Adds an edge, which leads to the next place or, after two signs, along a jump.
fn push_edge(edge: Edge, out: &mut String) -> Result<(), AllocError> {
    let sign = if edge.taken { ">>" } else { ">" };
    write!(out, " {}{sign}{}", edge.from, edge.to)
}
