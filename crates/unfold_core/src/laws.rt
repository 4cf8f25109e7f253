//! What holds of nodes. Each function's contract is a law; it computes nothing.

ghost use Rattle.unfold_core.specs.Laws.{NodesAreOrdered, StartIsNode, EdgesReachNodes, EdgesGoUp};
ghost use Rattle.unfold_core.specs.EdgeLaws.{LeavingGoesUp};
ghost use Rattle.unfold_core.specs.GraphLaws.{HasOneGraph, HasOneRefusal, HasNotBoth, EdgesLeadOn, NodesAreReached, KindsAreJoined};
ghost use Rattle.unfold_core.specs.LinkLaws.{NodesHaveLinks, LinksAreJoined, StartIsFirst};
ghost use Rattle.unfold_core.specs.RunLaws.{RunsAreSound};
ghost use Rattle.xdp_machine.specs.Program.{XdpProgram};
ghost use Rattle.kind_core.specs.declared.kind.Offsets.{Offsets};
ghost use Rattle.unfold_core.specs.Acceptance.{HasOneOutcome};

/// Of two nodes of a program one comes before the other, and never in a circle.
pub fn nodes_are_ordered()
    ensures { NodesAreOrdered }
{}

/// A run begins at a node.
pub fn start_is_node()
    ensures { StartIsNode }
{}

/// An edge leads to a node.
pub fn edges_reach_nodes()
    ensures { EdgesReachNodes }
{}

/// Every edge leads to a node that comes later.
pub fn edges_go_up()
    ensures { EdgesGoUp }
{}

/// All edges that leave a node of a program lead to nodes that come later, so runs never come back.
pub fn leaving_goes_up()
    ensures { LeavingGoesUp }
{}

/// A program has one graph: what is known at each node is the one solution of its equation.
pub fn has_one_graph()
    ensures { HasOneGraph }
{}

/// A program has one first node that is refused,
pub fn has_one_refusal()
    ensures { HasOneRefusal }
{}

/// and none where it has a graph.
pub fn has_not_both()
    ensures { HasNotBoth }
{}

/// The edges of a graph lead to later nodes of it,
pub fn edges_lead_on()
    ensures { EdgesLeadOn }
{}

/// and to each node but the first: so the nodes are exactly those that are reached from the first.
pub fn nodes_are_reached()
    ensures { NodesAreReached }
{}

/// What is known at a node is what is known on the edges that lead there, joined.
pub fn kinds_are_joined()
    ensures { KindsAreJoined }
{}

/// The edges of a graph are the present edges of its nodes: each leads to where the machine goes on; one of each side leaves a node, and two
/// to one place lead to one node.
pub fn nodes_have_links()
    ensures { NodesHaveLinks }
{}

/// What is known at a node is the join of what is known on the edges to it, and at the first node of what a run begins with.
pub fn links_are_joined()
    ensures { LinksAreJoined }
{}

/// A graph has a first node, where runs begin.
pub fn start_is_first()
    ensures { StartIsFirst }
{}

/// Every packet, over all maps of the declarations of a program that unfolds, has a run that follows the graph: a path of present edges
/// from the start, where at each node the machine is described by what is known there. It comes to one end in as many steps as there are
/// nodes, or in any more, so it is never stuck.
pub fn runs_are_sound()
    ensures { RunsAreSound }
{
    kind_core::laws::steps_are_sound();
    kind_core::laws::later_describes();
    kind_core::laws::join_describes();
    kind_core::laws::start_is_described();
    xdp_machine::laws::steps_change_only();
    xdp_machine::laws::steps_keep_ranges();
}

/// A program has one first refusal at most, and none where it is accepted.
pub fn has_one_outcome()
    ensures { (offsets : Offsets) (p : XdpProgram) → HasOneOutcome offsets p }
{}
