// The nodes to which the edges of each node lead.

ghost use Rattle.std.specs.Prelude.{◌≡◌, IfOk};
ghost use Rattle.unfold_core.specs.Unfolding.{IsUnfolded};
ghost use Rattle.predicate_core.specs.ProgramGraph.Graphs.{graph_of};
ghost use Rattle.predicate_core.specs.ProgramGraph.Ends.{added, HaveEnds};

use std::alloc::{AllocError, Global};
use unfold_core::{Edge, Unfolded};
use xdp_object::Program;

/// The nodes to which the edges of a node lead, where they are present: that to the next place, and that of a jump.
#[derive(Copy, Clone, Debug, PartialEq, Eq)]
pub struct NodeEnds {
    pub next: Option<u32>,
    pub jump: Option<u32>,
}

// With one edge more.
fn with_edge(ends: NodeEnds, edge: &Edge) -> NodeEnds
    ensures { result ≡ added ends edge.now.taken edge.now.to }
{
    if edge.taken {
        NodeEnds {
            next: ends.next,
            jump: Some(edge.to),
        }
    } else {
        NodeEnds {
            next: Some(edge.to),
            jump: ends.jump,
        }
    }
}

/// For each node of a program's graph the nodes to which its edges lead.
pub fn ends(
    alloc: Global,
    program: &Program,
    unfolded: &Unfolded,
) -> Result<Vec<NodeEnds>, AllocError>
    requires { IsUnfolded program.now unfolded.now }
    ensures { IfOk result (λ ends. HaveEnds (graph_of program.now unfolded.now) ends.items) }
{
    unfold_core::laws::nodes_have_links();
    unfold_core::laws::edges_lead_on();
    let none = NodeEnds {
        next: None,
        jump: None,
    };
    let mut ends = vec![in alloc; none; unfolded.nodes.len()]?;
    for edge in &unfolded.edges {
        let from = edge.from as usize;
        ends[from] = with_edge(ends[from], edge);
    }
    Ok(ends)
}
