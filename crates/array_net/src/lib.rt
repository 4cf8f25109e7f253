//! A map of the program that is an array, as a block: [`array`]. Its words stand in memories, and so do those of hashes ([`words`]).
#![tactic(auto)]

mod block;
pub mod words;

pub use block::{MapNets, array, chosen_index, has_word, names_slot, value_name};
