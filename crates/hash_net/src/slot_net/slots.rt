//! What shows a slot.

use cell_nets::operand::Operand;

/// What shows a slot of a hash: whether it is used, and the words of its key.
#[derive(Drop)]
pub struct SlotNets<N> {
    pub used: Operand<N>,
    pub key: Vec<Operand<N>>,
}
