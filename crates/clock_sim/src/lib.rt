//! Runs a design clock by clock.
#![tactic(auto)]

mod builder;
mod clock;
mod clocked;
mod compile;
mod edge;
mod emit;
mod layout;
mod memory;
mod names;
mod operands;
mod order;
mod outputs;
mod sim;
mod step;
mod wires;

pub use clocked::Clocked;
pub use names::place_in;
pub use sim::{Sim, XValue};
