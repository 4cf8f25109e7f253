//! What an operation asks of its map's block in the clock in which it commits.
//! `map_block` has the parts of a map of any kind behind one trait, `change_net` what a clock changes in a map.
#![tactic(auto)]

pub mod change_net;
pub mod choosing;
pub mod fetch;
pub mod laws;
pub mod map_block;
pub mod target;
pub mod whole;
pub mod words;
