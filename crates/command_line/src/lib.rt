//! The words that the program is called with, and what they ask for.
#![tactic(auto)]

mod command;
mod error;
mod number;
mod parse;
mod read;
mod values;
mod words;

pub use command::{Command, Files};
pub use error::WordsError;
pub use read::read_words;
pub use words::Words;
pub use xdp_object::Choice;
