//! The control part of a pipeline: which stages hold packets, when beats go over, which packets are sent back.
//! `ring_net` counts frames by slot and lap.
#![tactic(auto)]

pub mod control;
pub mod laws;
pub mod names;
pub mod returns;
pub mod ring_net;
mod statements;
