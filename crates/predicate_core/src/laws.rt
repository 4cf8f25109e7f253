//! What holds of cells that are made node by node. Each function's contract is a law; it computes nothing.

ghost use Rattle.predicate_core.specs.Laws.{NodesFollow, NodesPoint, OpensPoint, NodesRead, OpensRead, ArrivalsStay, StepsStay, WholesCompute};
ghost use Rattle.predicate_core.specs.Opening.{OpensFollow};
ghost use Rattle.predicate_core.specs.Feeding.{SoundGraphsFeed};
ghost use Rattle.predicate_core.specs.Fitting.{ArrivalsFit, NodesFit};

/// With the edge to the first node alone things are right as far as it.
pub fn opens_follow()
    ensures { OpensFollow }
{
    kind_core::laws::start_is_described();
    xdp_machine::laws::starts_in_range();
}

/// A node more: where things were right as far as it, they are right as far as the next one.
pub fn nodes_follow()
    ensures { NodesFollow }
{}

/// With the edge to the first node alone no pointer is held.
pub fn opens_point()
    ensures { OpensPoint }
{}

/// A node more: where pointers came from lookups as far as it, they do as far as the next one, and so do its accesses.
pub fn nodes_point()
    ensures { NodesPoint }
{}

/// With the edge to the first node alone there is nothing to read.
pub fn opens_read()
    ensures { OpensRead }
{}

/// A node more: where reads are made, and wait for the writes before them, as far as it, they do as far as the next one.
pub fn nodes_read()
    ensures { NodesRead }
{}

/// Cells that read no site may be added where edges have been joined.
pub fn arrivals_stay()
    ensures { ArrivalsStay }
{}

/// The same after the code of a node.
pub fn steps_stay()
    ensures { StepsStay }
{}

/// Where edges meet at a node what is held fits the rows of its origins.
pub fn arrivals_fit()
    ensures { ArrivalsFit }
{
    crate::program_graph::laws::graphs_are_sound();
    sound_graphs_feed();
}

/// A node more: its cells fit its row, and its edges bring what stands after it.
pub fn nodes_fit()
    ensures { NodesFit }
{}

/// Once all nodes are done, and the cells of the answer are there, the law of cells holds of them: they compute the runs of the program, for
/// every prefix of its nodes. And they can be built.
pub fn wholes_compute()
    ensures { WholesCompute }
{
    xdp_machine::laws::starts_in_range();
    xdp_machine::laws::runs_leave_in_range();
}

/// In a graph as unfolding gives it an edge leads to each node when its turn comes, and what is known there says no more than what is known on
/// the edge.
pub fn sound_graphs_feed()
    ensures { SoundGraphsFeed }
{}
