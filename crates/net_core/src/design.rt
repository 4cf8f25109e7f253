//! A design, section by section.

use crate::tree::{Expr, Net, Right, Stmt, Word};

/// A port of the module.
#[derive(Clone, Copy, PartialEq, Eq, Debug)]
pub struct Port {
    pub output: bool,
    pub width: u8,
}

/// An integer, a register or a memory.
#[derive(Clone, Copy, PartialEq, Eq, Debug)]
pub enum Declared {
    /// The variable of a memory's `for`.
    Integer,
    /// A register and its first value.
    Register(Word),
    /// A memory of 2 to the power `index` words: their first value, and which integer fills them.
    Memory {
        index: u8,
        first: Word,
        integer: u32,
    },
}

/// A wire and its right side.
#[derive(Drop)]
pub struct Wire {
    pub width: u8,
    pub right: Right<Net>,
}

/// What an output shows.
#[derive(Drop)]
pub struct Assign {
    pub port: u32,
    pub value: Expr<Net>,
}

/// A design. Its names stand in order of declaration: those of the ports, of what is declared, of the wires.
#[derive(Drop)]
pub struct Design {
    pub names: Vec<String>,
    pub ports: Vec<Port>,
    pub declared: Vec<Declared>,
    pub wires: Vec<Wire>,
    pub assigns: Vec<Assign>,
    pub always: Vec<Stmt<Net>>,
}
