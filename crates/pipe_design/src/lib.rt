//! The design of a program: all parts in their order, and the link.
//! `map_parts` has the parts of maps and of what changes in them.
#![tactic(auto)]

mod answer;
mod error;
mod linking;
mod lists;
mod making;
pub mod map_parts;
mod marks;
mod order;
mod parts;

pub use error::PipelineError;
pub use making::pipeline;

// Crates above name these through this one.
pub use pipe_parts;
pub use place_parts;
