//! The places of a pipeline: what they show of the packets that they hold, and what a clock of them does, by what the other parts say.

pub mod laws;
