//! What goes over at the ports of a design that follows a pipeline with maps: packets inwards, and outwards the answers of their cell runs, one after another. There is no code
//! but for the laws.

pub mod laws;
