//! Finding a program that does what a refused one does, and that unfolds.
//!
//! Where ways meet on which a register holds values of different kinds, clang's code is refused. [`find`] doubles what follows: each
//! instruction stands once for each set of kinds that comes to it and matters there, and once for each copy of the loops around it.
//! Numbers that differ are kept apart only where a refusal can be traced back to them. Nothing is claimed of what is found but that
//! it is a program: `cover_core::covers` says whether it does what the refused one does.
#![tactic(auto)]

mod agreeing;
mod demands;
mod flow;
mod graph;
mod laying;
mod live;
mod locations;
mod made;
mod maps;
mod orders;
mod search;
mod source;
mod spots;
mod touching;
mod tracing;
mod visiting;
mod walking;

pub use made::Found;
pub use search::find;
