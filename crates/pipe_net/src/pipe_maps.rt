//! The parts of a pipeline that have the tables of its maps: what a clock leaves in them, what they say of it to others, and what the host reads.

pub mod laws;
