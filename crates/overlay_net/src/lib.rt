//! What a read sees over a packet's own earlier operations, in nets.
//! `site_operands` has what stands for the cells of a site, `value_net` values under pointers, word by word.
#![tactic(auto)]

pub mod answering;
pub mod finding;
pub mod keys;
pub mod site_operands;
pub mod value_net;
pub mod writing;

// Crates above name these through this one.
pub use cell_nets;
