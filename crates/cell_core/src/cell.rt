//! Cells.

use crate::operator::Operator;
use smallvec::SmallVec;

/// Cells by their numbers, in order.
pub type Cells = SmallVec<u32, 4>;

/// An operator on earlier cells: its value is `width` bits (at most 64) of the operator's number, from bit `from` (at
/// most 63) on.
#[derive(Drop)]
pub struct Cell {
    pub op: Operator,
    pub ins: Cells,
    pub width: u32,
    pub from: u32,
}
