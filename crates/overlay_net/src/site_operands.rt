//! What stands in nets for the operations of a packet on its maps: an operand for each cell that a site takes or gives, and pointers to
//! entries as numbers.

use cell_nets::cell_core::site::Act;
use cell_nets::operand::Operand;

/// What stands for the cells of a site: its guard, the words of its key, its operands, the cell that says whether its key is there, by the
/// number of its pointer, the cell of what it answers, and of an access the number of the pointer that it goes through. For a cell that
/// there is not it is the number 0.
#[derive(Drop)]
pub struct SiteNets<N> {
    pub guard: Operand<N>,
    pub key: Vec<Operand<N>>,
    pub operands: Vec<Operand<N>>,
    pub found: Operand<N>,
    pub answer: Operand<N>,
    pub pointer: Operand<N>,
}

/// What stands for an earlier operation of the packet that may write a map: what it does, the cells of its site, one bit that says whether it
/// writes, and the number of the pointer to the entry that it writes.
#[derive(Copy, Clone)]
pub struct Pending<'a, N> {
    pub act: Act,
    pub nets: &'a SiteNets<N>,
    pub writes: Operand<N>,
    pub written: Operand<N>,
}
