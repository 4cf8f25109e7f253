//! What expressions read of cells.

/// What stands for a cell where it is an input: a number, a net of so many bits, or of a net of so many bits those from one on, and how many.
#[derive(Clone, Copy, PartialEq, Eq, Debug)]
pub enum Operand<N> {
    Known(u64),
    Net(N, u8),
    Part(N, u8, u8, u8),
}
