//! Runs a design by events, in any order: a net takes the value of its right side where the two differ. Every order ends in
//! the values of a clock.
#![tactic(auto)]

mod clocked;
mod edge;
mod evaluate;
mod events;
mod execute;
mod held;
mod memory;
mod names;
mod nets;
mod operate;
mod order;
mod outputs;
mod refusal;
mod values;

pub use clocked::EventSim;
pub use events::{Events, Quiet};
pub use order::order_of;
pub use refusal::EdgeError;
