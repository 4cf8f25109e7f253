//! The text of a design.
//! `verilog_grammar` says which bytes spell a design, in a subset of IEEE 1364-2005.
#![tactic(auto)]

mod design;
mod expression;
mod fill;
mod item;
mod names;
mod spaced;
mod statement;
pub mod verilog_grammar;

pub use crate::design::write_text;
