//! Products in designs that are made of blocks: block by block, none stands inside an operand of another.

pub mod laws;
