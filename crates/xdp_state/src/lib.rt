//! The state of the sequential machine in memory, and what instructions do to it that neither jump nor call: arithmetic,
//! loads, stores and atomic changes. [`Refusal`] says why there is no hardware for a program: kinds, graphs and plans of rows answer it.
//!
//! A call that changes the state in place says by a `bool` whether the machine has a case: where it has none, nothing
//! has changed. Nothing here takes memory.
#![tactic(auto)]

mod access;
pub mod arithmetic;
mod atomics;
mod effects;
mod entries;
mod frames;
pub mod memory;
mod pointers;
mod refusal;
mod regions;
mod registers;
mod stack;
mod state;
mod value;

pub use access::{loaded_plain, loaded_signed, store};
pub use atomics::atomic;
pub use effects::{alu, assign, immediate, taken};
pub use entries::declared;
pub use pointers::number_in;
pub use refusal::{BuildError, MOST_STAGES, Refusal, Why};
pub use regions::fill;
pub use registers::Registers;
pub use stack::Stack;
pub use state::State;
pub use value::{Key, Value};

// Crates above name these through this one.
pub use beat_core;
pub use xdp_machine::{bits_core, bpf_isa, xdp_maps};
