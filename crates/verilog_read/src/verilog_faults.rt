//! Laws of the first fault of a Verilog text. They stand here as contracts of functions that compute nothing.

pub mod laws;
