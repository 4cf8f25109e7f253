//! Blocks of nets under names of their own, the design that is linked of them, and its clock part by part.
//! `block_forms` says when such a design is well formed, `product_blocks` that no product stands inside another.
#![tactic(auto)]

pub mod block;
pub mod block_forms;
mod error;
pub mod laws;
pub mod name;
pub mod product_blocks;
mod sections;
mod starts;
mod trees;
mod whole;

pub use error::LinkError;
pub use whole::link;
