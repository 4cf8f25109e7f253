//! What the place of a row takes: the row of the program, and what stands there for sites and maps.

use hazard_core::cell_core::program::CellProgram;
use overlay_net::cell_nets::operand::Operand;
use overlay_net::site_operands::SiteNets;
use read_net::sites::MapNets;

/// A row of a program, by the rows of its cells.
#[derive(Copy, Clone)]
pub struct ProgramRow<'a> {
    pub program: &'a CellProgram,
    pub rows: &'a [u32],
    pub row: u32,
}

/// What stands at a place for the operations on maps: for each site the operands of its cells, for each map what shows its slots, and for
/// each site the word of the table under its pointer, of a load and of an atomic change that answers. `bits` is how many bits the numbers of
/// pointers have.
#[derive(Copy, Clone)]
pub struct StageNets<'a, N> {
    pub sites: &'a [SiteNets<N>],
    pub maps: &'a [MapNets<'a, N>],
    pub words: &'a [Operand<N>],
    pub bits: u8,
}
