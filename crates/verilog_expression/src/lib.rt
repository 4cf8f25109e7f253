//! Expressions, right sides and statements from the tokens of a Verilog text, or the first fault in them.
#![tactic(auto)]

mod entry;
mod error;
mod expr;
mod fault;
pub mod lexemes;
mod lookahead;
mod mark;
mod names;
mod rest;
mod right;
mod stmt;
mod target;
mod value;

pub use crate::entry::Entry;
pub use crate::error::PhraseError;
pub use crate::expr::expression;
pub use crate::fault::{Code, Fault};
pub use crate::mark::Mark;
pub use crate::names::Names;
pub use crate::rest::Rest;
pub use crate::right::right_side;
pub use crate::stmt::statement;
