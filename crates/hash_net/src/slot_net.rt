//! Slots of maps in nets: a block that shows the slots of a hash ([`shown`]), and operands that say where a key is found among
//! slots, and which is the first free one ([`finding`]).

mod choosing;
pub mod finding;
mod indexing;
pub mod shown;
pub mod slots;
mod testing;

pub use indexing::index_pointer;
