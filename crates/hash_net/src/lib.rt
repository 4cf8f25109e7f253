//! A map that is a hash as a part of a pipeline.
//! `slot_net` shows its slots, where a key or an index is found, and the first free slot.
#![tactic(auto)]

mod block;
mod nets;
pub mod slot_net;

pub use block::{HashNets, count_name, hash, value_name};
pub use nets::{has_word, value_first};

// Crates above name these through this one.
pub use array_net;
