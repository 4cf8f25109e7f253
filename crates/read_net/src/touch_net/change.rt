//! What stands for a change of a map, and for the keys of a packet's own updates.

use overlay_net::cell_nets::operand::Operand;

/// What stands for a change of a map: the slot that is written, the words of the key that stands there, and whether the key comes or goes.
#[derive(Copy, Clone)]
pub struct ChangeNets<'a, N> {
    pub slot: Operand<N>,
    pub key: &'a [Operand<N>],
    pub presence: Operand<N>,
}

/// What stands for the words of the key of an update of the packet's own, by the number of its site.
#[derive(Copy, Clone)]
pub struct OwnKey<'a, N> {
    pub site: u32,
    pub key: &'a [Operand<N>],
}
