//! The cells where edges meet at a node, of the conditions of jumps, of edges that leave, and of ends.
//! `node_cells` has what leaves a node, by its instruction.
#![tactic(auto)]

pub mod joining;
pub mod laws;
pub mod leaving;
pub mod meeting;
pub mod node_cells;
pub mod part;
pub mod testing;
