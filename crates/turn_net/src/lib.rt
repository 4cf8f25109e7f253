//! Which operation commits in a clock.
//! `target_net` says which slots operations write, `host_net` what the host may do.
#![tactic(auto)]

pub mod action;
pub mod choosing;
pub mod host_net;
pub mod keeping;
pub mod laws;
pub mod nets;
pub mod target_net;
