//! The nets that the part reads of others, and those that it shows.

use block_core::block::Block;
use block_core::name::Name;
use cell_nets::cell_core::site::Act;
use cell_nets::cell_core::xdp_state::xdp_maps::decl::MapDecl;
use cell_nets::operand::Operand;
use overlay_net::site_operands::SiteNets;

/// What stands for the operation at a record site: the number of the site, what it does, the declaration of its map, the cells of the site at
/// the commit place, and the slot that it writes.
#[derive(Copy, Clone)]
pub struct RecordNets<'a, N> {
    pub number: u32,
    pub act: Act,
    pub decl: &'a MapDecl,
    pub nets: &'a SiteNets<N>,
    pub target: Operand<N>,
}

/// The nets of other parts, each of one bit: a packet stands at the commit place, it is sent back, and the host writes.
#[derive(Clone, Copy, PartialEq, Eq, Debug)]
pub struct ActionNets<P> {
    pub present: Name<P>,
    pub back: Name<P>,
    pub host: Name<P>,
}

/// How many bits the register has that says how far the packet is, and how many the number of a slot.
#[derive(Clone, Copy, PartialEq, Eq, Debug)]
pub struct ActionShape {
    pub bits: u8,
    pub slot_bits: u8,
}

/// The block, with what it shows: of each record whether it commits, whether one does, and whether the packets stay where they are.
#[derive(Drop)]
pub struct Action<P: Drop> {
    pub block: Block<Name<P>>,
    pub chosen: Vec<Operand<Name<P>>>,
    pub commits: Name<P>,
    pub stays: Name<P>,
}
