//! Blocks: the nets of a part of a design.

use crate::name::Name;
use net_core::tree::{Expr, Right, Stmt, Word};

/// A memory of 2 to the power `index` words, and their first value.
#[derive(Clone, Copy, PartialEq, Eq, Debug)]
pub struct BlockMemory {
    pub index: u8,
    pub first: Word,
}

/// A wire of a block and its right side.
#[derive(Drop)]
pub struct BlockWire<N: Drop> {
    pub width: u8,
    pub right: Right<N>,
}

/// A block: its registers by their first values, its memories, its wires, and the statement of its always block, which
/// sets its own registers and memories by their number in the block.
#[derive(Drop)]
pub struct Block<N: Drop> {
    pub registers: Vec<Word>,
    pub memories: Vec<BlockMemory>,
    pub wires: Vec<BlockWire<N>>,
    pub statement: Stmt<N>,
}

/// What an output shows.
#[derive(Drop)]
pub struct Output<N: Drop> {
    pub port: u32,
    pub value: Expr<N>,
}

/// A part of a design, with its block.
#[derive(Drop)]
pub struct Placed<P: Drop> {
    pub part: P,
    pub block: Block<Name<P>>,
}
