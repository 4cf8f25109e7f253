//! The parts of a pipeline that count frames, take them and answer them: what a clock of them does, by what the other parts say.

pub mod laws;
