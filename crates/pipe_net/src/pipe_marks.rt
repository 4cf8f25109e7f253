//! The parts of a pipeline that keep marks: what they say, and what a clock of them does, by what the other parts say.

pub mod laws;
