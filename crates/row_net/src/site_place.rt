//! The places of a pipeline whose program operates on maps, as blocks: packets may stay there, and pointers go with their cells.

pub mod holding;
pub mod laws;
pub mod placing;
pub mod pointing;
pub mod taking;
