//! What cells hold of a machine on the path of a packet, and what the cells of a node are to do.
//!
//! A place of a machine, a register or a slot of its stack, has data by its kind: of a number that is not known a cell, of an answer of a
//! lookup or a place in an entry a pointer, else none. `specs/RegisterCells` says which cells hold a machine, `specs/Carrying` what an instruction's
//! cells carry, `specs/Steps` what the code of a node does, `specs/Reading` which cells read a site, and for which they wait, and
//! `specs/Law` what the cells of a whole program are to hold.

pub mod laws;
pub mod machine_cells;
pub mod operand;
pub mod way;
