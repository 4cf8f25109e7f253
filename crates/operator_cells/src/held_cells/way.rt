//! Edges and ends of a program's graph while its cells are made.

use crate::held_cells::machine_cells::RegisterCells;
use kind_core::{Kinds, Number};

/// An edge: the node that it leads to, the cell that is 1 where it is on the path of a packet, and what is known and held on it.
#[derive(Copy, Clone, Debug, PartialEq, Eq)]
pub struct Way {
    pub to: u32,
    pub bit: u32,
    pub kinds: Kinds,
    pub held: RegisterCells,
}

/// An end: the guard of its node, what is known of the number in R0, and what is held there.
#[derive(Copy, Clone, Debug, PartialEq, Eq)]
pub struct Exit {
    pub guard: u32,
    pub verdict: Number,
    pub held: RegisterCells,
}
