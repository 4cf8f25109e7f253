//! What is wanted of a design: its port history, clock by clock, beside the packet runs of a program.
//! `specs/HostHistory` says what the host writes before the first beat and reads after the last answer, `same_designs` that a design which shows the same meets the same.
#![tactic(auto)]

pub mod laws;
pub mod same_designs;
