//! A whole pipeline: a clock of its design is a clock of the machine of the pipe.

pub mod laws;
