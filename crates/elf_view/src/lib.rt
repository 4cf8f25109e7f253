//! Objects in ELF64, as clang writes them for eBPF: a view of their parts, and a writer of small ones.
#![tactic(auto)]

mod error;
mod gabi;
mod headers;
mod object;
mod parts;
mod pieces;
mod read;
mod rules;
mod sizes;
mod strings;
mod tables;
mod view;

pub use crate::error::ElfError;
pub use crate::object::{MapRecord, object_of};
pub use crate::parts::{Rel, Section, Symbol};
pub use crate::view::ElfView;
