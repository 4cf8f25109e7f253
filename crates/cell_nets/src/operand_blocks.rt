//! Blocks over operands: of wires alone ([`wiring`]), and with registers that take operands in every clock ([`registers`]).

pub mod registers;
pub mod wiring;
