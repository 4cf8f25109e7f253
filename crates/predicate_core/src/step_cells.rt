//! The code of one node of a program's graph, by its instruction.
//!
//! `step_node` adds what the node adds behind its guard: cells, pointers, sites, and the edges and ends that leave it. `specs/Stepping` says
//! that this is what the code of a node is to do, and which edges leave it; `specs/Waiting` says which cells stand for the writes of a map.

pub mod laws;
pub mod made;
mod operating;
pub mod pending;
pub mod stepping;
