//! The pipeline as a machine of stages, answers, marks and commits, and its laws over all lists of clocks.
//! `host_runs` has the clocks in which the host loads maps and reads them back.
#![tactic(auto)]

pub mod answers;
pub mod arrived;
pub mod bound;
pub mod host_runs;
pub mod laws;
pub mod packet;
pub mod pipe;
pub mod places;
pub mod planned;
pub mod points;
pub mod ports;
pub mod queue;
