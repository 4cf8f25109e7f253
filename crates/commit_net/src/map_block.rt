//! The map of a program behind one trait, whatever its kind: [`MapBlock`] builds its parts, from what stands for the operations on it. Two types
//! have it, [`ArrayBlock`] and [`HashBlock`].

mod array;
mod form;
mod found;
mod hash;
pub mod laws;
mod parts;

pub use array::ArrayBlock;
pub use form::{MapForm, form_of};
pub use hash::HashBlock;
pub use parts::{ControlNets, MapBlock, MapBlocks, MapParts};
