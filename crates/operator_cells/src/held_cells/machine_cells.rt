//! The cells that hold a machine.

use cell_core::cell::Cells;

/// A pointer to an entry of a map: the cell that is 1 where its lookup found the key, and the words of the key, of eight bytes each with the
/// low byte first.
#[derive(Drop)]
pub struct Pointer {
    pub found: u32,
    pub key: Cells,
}

/// The cells of registers, slots of the stack, the first 256 bytes of the packet and the target of a redirect. A register or a slot counts
/// where its kind has data: of a number that is not known it is a cell, of an answer of a lookup or a place in an entry a pointer's number.
#[derive(Copy, Clone, Debug, PartialEq, Eq)]
pub struct RegisterCells {
    pub registers: [u32; 11],
    pub slots: [u32; 64],
    pub window: [u32; 256],
    pub target: u32,
}
