//! The stages of a program, by the rows of its nodes: in which row each value is made, read on the graph of the program alone.
//!
//! A node's data places are the registers, the slots of the stack, the first 256 bytes of the packet, the target of a redirect, and for each
//! map the writes that are pending. Each has at a node an origin, the node that made it, with a row. An instruction's result stands in the
//! greatest row of what it reads, and one row later where it takes a stage of its own; where edges bring different origins the node makes a
//! new one. A program has as many stages as the greatest row, and at most 256.

mod arriving;
pub mod joining;
pub mod laws;
pub mod node;
mod stages;

pub use stages::{Stages, count_stages};
