//! That every linked pipeline meets what is wanted of it, whatever maps are loaded and whatever is offered and taken.
//! `pipe_answers` has the laws of all clocks, `pipe_ports` of what goes over, `pipe_loads` of the load and what comes after it.
#![tactic(auto)]

pub mod laws;
pub mod pipe_answers;
pub mod pipe_loads;
pub mod pipe_ports;

// Crates above name these through this one.
pub use pipe_net;
