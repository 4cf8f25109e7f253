//! The code of the nodes of a program's graph: the edges and ends that leave a node, by its instruction.
//!
//! Each function adds what a node of one sort adds behind its guard, and its contract is `Steps` of `held_cells`: for all values of the cells
//! and every run, where things are good before the node they are good after it. `specs/Ends` says which edges leave a node of a graph.

pub mod ending;
pub mod jumping;
pub mod laws;
pub mod leading;
