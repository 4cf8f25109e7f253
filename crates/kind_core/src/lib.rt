//! Kinds: what is known of each register and of each slot of the stack at a point of a program, whatever the packet is.
//!
//! A program is hardware where its kinds say that no step can fail: each access is inside its region, each lookup's answer is
//! tested before it is used. [`allowed`] is the first test that an instruction fails, [`transfer`] gives the kinds after it, on
//! one of its edges, [`decide`] says which edge of a conditional jump is absent, and [`join`] what is known where edges meet.
//!
//! Conditions of all calls: an instruction is one of the table (`is_legal`). Nothing here takes memory.
#![tactic(auto)]

mod access;
pub mod base;
mod bounds;
mod conditions;
mod edges;
mod effects;
mod helpers;
mod joins;
mod kind;
pub mod laws;
pub mod number;
mod places;
mod pointers;
mod profile;
mod refinements;
mod tests;

pub use base::Base;
pub use edges::{advance, allowed, decide, transfer};
pub use joins::{join, join_into};
pub use kind::{Kind, Kinds, Offsets};
pub use number::Number;

// Crates above name these through this one.
pub use xdp_state::{BuildError, Refusal, Why};
