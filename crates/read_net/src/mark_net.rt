//! The marks of the packet at a place of a pipeline: the block that keeps them ([`marks`]), and the part that says whether one of them calls for a reload ([`reload`]).

pub mod laws;
pub mod marks;
pub mod nets;
pub mod reload;
