//! Common subexpressions of a design as wires, each evaluated once in a clock.

mod checking;
mod counting;
mod rewriting;
mod sharing;
mod statements;
mod table;

pub(crate) use sharing::shared;
