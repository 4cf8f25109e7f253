//! All that the program does: from words, an object and a capture to a Verilog text, answers and verdicts.
#![tactic(auto)]

mod capture;
mod codes;
mod command;
mod compile;
mod demo;
mod drive;
mod error;
mod events;
mod form;
pub mod laws;
mod limits;
mod maps;
mod object;
mod packets;
mod pipeline;
mod prepare;
mod reference;
mod report;
mod run;
mod sim;
mod status;
mod verilog;

pub use capture_run::verdict_line;
pub use command::top;
pub use command_line::Words;
pub use status::Status;
