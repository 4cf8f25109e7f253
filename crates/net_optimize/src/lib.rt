//! A shorter design that shows the same.
//! `simple_logic` simplifies its expressions, `shared_expressions` makes a wire of what stands at several places.
#![tactic(auto)]

mod comparing;
mod concatenation;
mod depth;
mod flags;
mod folding;
mod formed;
mod joining;
mod kept;
mod live;
mod making;
mod marks;
mod names;
mod negation;
mod optimizing;
mod reading;
mod reads;
mod renumber;
mod sections;
mod shared_expressions;
mod simple;
mod simple_logic;
mod sources;
mod wires;

pub use optimizing::optimized;
