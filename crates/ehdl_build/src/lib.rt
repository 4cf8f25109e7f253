//! Object bytes to what is built of them: a text that realizes the program, or its first refusal.
//! `program_plan` and `pipe_programs` say that programs are prepared for a pipeline.
#![tactic(auto)]

mod built;
mod counted;
pub mod pipe_programs;
mod pipelined;
pub mod program_plan;

pub use built::{Built, CompileError, compile};
