//! The design that a text spells, or its first error and where it stands.
//! `verilog_faults` says what a first error rests on: texts that begin alike have the same one.
#![tactic(auto)]

mod added;
mod declared;
mod error;
mod flags;
mod header;
mod items;
mod memory;
mod partial;
mod parts;
mod ports;
mod read;
mod section;
mod sections;
mod targets;
pub mod verilog_faults;

pub use crate::error::ReadError;
pub use crate::read::read_text;
pub use crate::section::Section;
