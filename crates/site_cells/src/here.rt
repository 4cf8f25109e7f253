//! Where an operation stands.

/// The node of an operation on a map: its number, the cell that is 1 where it is on the path of a packet, and the cell of the writes of the
/// map that reach it.
#[derive(Copy, Clone, Debug, PartialEq, Eq)]
pub struct Here {
    pub node: u32,
    pub guard: u32,
    pub pending: u32,
}
