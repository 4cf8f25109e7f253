//! What stands after each place of a pipeline whose program operates on maps: which cells and pointers its registers hold, and operands for
//! those and for the sites of the program.

pub mod bits;
pub mod constants;
pub mod flags;
pub mod laws;
pub mod lists;
pub mod parts;
pub mod pointing;
pub mod sites;
pub mod tables;
