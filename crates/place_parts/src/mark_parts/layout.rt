//! What marks are made for.

use hazard_core::cell_core::program::CellProgram;
use hazard_core::cell_core::xdp_state::xdp_maps::decl::MapDecl;
use pipe_net::parts::Sizes;

/// What marks are made for: a program, the rows of its cells, the declarations of its maps, and how many parts of each sort there are.
#[derive(Clone, Copy)]
pub struct MarkLayout<'a> {
    pub program: &'a CellProgram,
    pub rows: &'a [u32],
    pub decls: &'a [MapDecl],
    pub sizes: Sizes,
}
