//! The cells of single operations, each with its value in every run.
//! `held_cells` says which cells hold a machine along the path of a packet.
#![tactic(auto)]

pub mod cells;
pub mod comparing;
pub mod dividing;
pub mod held_cells;
pub mod joining;
pub mod laws;
pub mod leaving;
pub mod sharing;
pub mod shifting;
pub mod slicing;
pub mod spreading;
pub mod working;
