//! The parts of a pipeline that say what the host may do and which operation commits: what they say, and what a clock of them does, by what the other
//! parts say.

pub mod laws;
