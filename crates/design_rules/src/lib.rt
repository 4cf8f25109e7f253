//! When a design is well formed, and the first item that breaks a rule: names, what is read and set, widths, how trees stand in one another.
//! `solved_wires` says that values which solve the wires of a design are those of a clock.
#![tactic(auto)]

pub mod formed;
pub mod solved_wires;
