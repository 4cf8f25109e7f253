//! What holds of the graph of a program that unfolds. Each function's contract is a law; it computes nothing.

ghost use Rattle.predicate_core.specs.ProgramGraph.Sound.{GraphsAreSound};
ghost use Rattle.predicate_core.specs.ProgramGraph.Nodes.{NodesHaveInsns};

/// The graph of a program that unfolds is sound: edges lead on, and what is known at a node is known on each edge to it.
pub fn graphs_are_sound()
    ensures { GraphsAreSound }
{
    unfold_core::laws::start_is_first();
    unfold_core::laws::nodes_have_links();
    unfold_core::laws::links_are_joined();
    unfold_core::laws::edges_lead_on();
    unfold_core::laws::nodes_are_reached();
    edge_cells::laws::joins_widen();
    edge_cells::laws::joins_are_filled();
    edge_cells::node_cells::laws::edges_are_filled();
    edge_cells::node_cells::laws::jumps_are_filled();
}

/// Each of its nodes has an allowed instruction.
pub fn nodes_have_insns()
    ensures { NodesHaveInsns }
{
    unfold_core::laws::nodes_have_links();
}
