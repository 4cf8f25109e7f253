//! The run of a packet: what a program does to it and to its maps, one instruction after another.
#![tactic(auto)]

mod calls;
mod flow;
mod plan;
mod run;
mod step;

pub use plan::{SeqPlan, run_bytes, run_packet};
pub use run::{Ended, STEP_LIMIT, SeqError};
