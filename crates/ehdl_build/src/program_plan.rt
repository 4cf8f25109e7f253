//! Programs are pipelinable: what the cells and the plan of a program say is all that the machine of `pipe_core` asks of them. There is no code.

pub mod laws;
