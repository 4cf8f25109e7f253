//! The graph of a program that unfolds, as the making of cells takes it: its nodes and edges by their numbers, and which nodes the edges of each
//! node lead to.
//!
//! `specs/Graphs` says which graph that is, and `specs/Sound` that it is sound: edges lead on, and what is known at a node is known on each edge to
//! it. [`ends`] gives the ends of the edges of all nodes.

mod edge_ends;
pub mod laws;

pub use edge_ends::{NodeEnds, ends};
