//! What the block of marks takes.

use crate::touch_net::change::{ChangeNets, OwnKey};
use overlay_net::cell_nets::cell_core::site::Act;
use overlay_net::cell_nets::cell_core::xdp_state::xdp_maps::decl::MapDecl;
use overlay_net::cell_nets::operand::Operand;
use overlay_net::site_operands::SiteNets;

/// What stands for a site at which the packet at a place has read: its number, what it does, the declaration of its map, its cells, and the keys of the
/// packet's own updates of maps with keys of the same length.
///
/// Beside these: its own register (`was`), the mark of the packet at the place before (`before`, the number 0 where there is none), one bit that says
/// whether its map changes in this clock for packets at this place (`comes`), and that change.
#[derive(Copy, Clone)]
pub struct MarkSite<'a, N> {
    pub site: u32,
    pub act: Act,
    pub decl: &'a MapDecl,
    pub nets: &'a SiteNets<N>,
    pub owns: &'a [OwnKey<'a, N>],
    pub was: Operand<N>,
    pub before: Operand<N>,
    pub comes: Operand<N>,
    pub change: ChangeNets<'a, N>,
}
