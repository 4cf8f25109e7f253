//! How many bits the words of nets have, and that they fit them.

pub(crate) mod expression;
mod keeping;
pub mod laws;
mod sizes;
mod staying;
mod wires;

pub use expression::expr_size;
pub use sizes::Sizes;
pub use staying::register_sizes;
pub use wires::right_size;
