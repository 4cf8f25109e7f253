//! Programs as predicated cells, node by node, and the law of whole programs.
//! `program_graph` has the graph by the numbers of its nodes, `step_cells` the code of one node.
#![tactic(auto)]

pub mod arriving;
pub mod closing;
pub mod laws;
pub mod making;
pub mod opening;
pub mod program;
pub mod program_graph;
pub mod step_cells;
