//! A program as cells.

use crate::cell::Cell;
use crate::site::Site;
use xdp_state::beat_core::Frame;

/// A packet as it comes in.
#[derive(Drop)]
pub struct PacketIn {
    pub frame: Frame,
    pub ifindex: u32,
    /// When it was captured, in nanoseconds.
    pub time: u64,
}

/// A node of the unfolded program: the place of its instruction, the cell that is 1 where it is on the path, and the
/// cells that it makes, from one on up to another: those of its edges and of its map's pending writes are among them.
#[derive(Copy, Clone, Debug, PartialEq, Eq)]
pub struct Node {
    pub place: u32,
    pub guard: u32,
    pub first: u32,
    pub end: u32,
}

/// A byte of the answer's frame that a store may change, and its cell.
#[derive(Copy, Clone, Debug, PartialEq, Eq)]
pub struct FrameByte {
    pub at: u32,
    pub cell: u32,
}

/// The cells of all nodes, the operations on maps in the order of their nodes, and the cells of the answer. The cells
/// of the answer come after those of the nodes.
#[derive(Drop)]
pub struct CellProgram {
    pub cells: Vec<Cell>,
    pub nodes: Vec<Node>,
    pub sites: Vec<Site>,
    pub verdict: u32,
    pub target: u32,
    pub frame: Vec<FrameByte>,
}
