//! Registers of a design that hold the same in every clock.

mod alike;
mod finding;
mod guessing;
mod mark;
mod readers;
mod repeating;
mod settings;
mod wires;

pub use finding::equal_registers;
