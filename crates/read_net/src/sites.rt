//! What a read takes: sites of the packet's own operations, and the map.

use hash_net::slot_net::slots::SlotNets;
use overlay_net::cell_nets::cell_core::site::Act;
use overlay_net::cell_nets::cell_core::xdp_state::xdp_maps::decl::MapDecl;
use overlay_net::cell_nets::operand::Operand;
use overlay_net::site_operands::SiteNets;

/// What stands for an operation of the packet on the map: the number of its site, what it does, and the cells of its site.
#[derive(Copy, Clone)]
pub struct OwnSite<'a, N> {
    pub site: u32,
    pub act: Act,
    pub nets: &'a SiteNets<N>,
}

/// What stands for a map: its declaration, what shows the slots of a hash and how many of these are used, and how many bits the numbers of its
/// pointers have. The slots of an array are known.
#[derive(Copy, Clone)]
pub struct MapNets<'a, N> {
    pub decl: &'a MapDecl,
    pub slots: &'a [SlotNets<N>],
    pub used: Operand<N>,
    pub bits: u8,
}

/// What stands for the cells that a site reads: the number of the pointer that it finds, whether that is not null, and bits of what it answers.
#[derive(Copy, Clone)]
pub struct ReadNets<N> {
    pub found: Operand<N>,
    pub there: Operand<N>,
    pub answer: Operand<N>,
}
