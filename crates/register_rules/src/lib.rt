//! Registers that a design does not need.
//! `equal_registers` finds those which hold the same in every clock, `narrow_registers` takes away bits that say nothing.
#![tactic(auto)]

pub mod equal_registers;
pub mod narrow_registers;
