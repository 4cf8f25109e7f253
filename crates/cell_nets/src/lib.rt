//! The operators of cells as expressions over nets, each with the operator's value.
//! `step_nets` has single steps of nets, `operand_blocks` blocks over operands.
#![tactic(auto)]

pub mod choosing;
pub mod comparing;
pub mod dividing;
pub mod gathering;
pub mod listing;
pub mod narrow;
pub mod operand;
pub mod operand_blocks;
pub mod operators;
pub mod phi;
pub mod shifting;
pub mod slice;
pub mod step_nets;
pub mod summing;
pub mod wires;

// Crates above name these through this one.
pub use cell_core;
