//! The parts of a pipeline that have the tables of its maps, for what its other parts show: [`parts::map_parts`].

pub mod committing;
pub mod laws;
mod operations;
pub mod parts;
mod tables;
mod words;
