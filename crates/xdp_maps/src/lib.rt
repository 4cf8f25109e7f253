//! What the maps of an XDP program hold, and what its helpers and memory accesses do to it.
//!
//! An array has the keys 0 to its capacity - 1 from the start, each as four bytes with the low one
//! first. A hash begins empty and holds at most as many keys as its capacity.
#![tactic(auto)]

mod array;
pub mod change;
pub mod decl;
pub mod errno;
mod hash;
pub mod laws;
pub mod short;
pub mod state;
mod table;
