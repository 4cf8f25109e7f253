//! Which designs that are made of blocks a Verilog text can spell.

pub mod laws;
