//! Programs without loops: each place of a program stands once for each copy of the loops that hold it.
//!
//! A jump back makes a loop, from its target to the last place that jumps there. A *node* is a place with a copy, 0 to 63, of each
//! loop that holds it: an edge into a loop starts at copy 0, a jump to its head from inside raises the copy, and leaving drops it.
//! Nodes have an order in which every edge goes up, so the graph of the nodes has no cycle. [`unfold`] gives the graph of a program, with
//! what is known at each node, or the first refusal. [`loops`] finds the loops of a program, or the first place that refuses it;
//! [`comes_before`] compares nodes; [`reached`] is the node at the end of an edge; [`leave`] gives the present edges of a node with what is
//! known on them, or the first test that the node fails.
#![tactic(auto)]

mod edges;
mod jumps;
pub mod laws;
mod links;
mod nesting;
mod nodes;
mod pending;
mod tables;
mod unfolding;
mod units;

pub use edges::{Point, leave};
pub use jumps::target;
pub use links::Edge;
pub use nesting::{Loop, MOST_UNITS, loops};
pub use nodes::{MOST_COPIES, Node, comes_before, reached};
pub use unfolding::{MOST_NODES, Unfolded, unfold};
pub use units::places;
