//! Values of the nets of a design that solve its wires. They are those of a clock.

pub mod laws;
