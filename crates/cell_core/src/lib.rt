//! Programs as cells: operators, each with a width, on the values of earlier cells. A packet goes through the cells of
//! all nodes of a program at once; guards say which of the nodes are its path.
#![tactic(auto)]

pub mod cell;
mod evaluation;
pub mod laws;
pub mod operator;
pub mod program;
pub mod site;
pub mod value;

pub use evaluation::eval;

// Crates above name these through this one.
pub use xdp_state;
