//! The two tables after a place: what stands for cells, and for their pointers.

ghost use Rattle.std.specs.Prelude.{◌≡◌, ◌<◌, All, IfOk, length, map as map_list};
ghost use Rattle.hazard_core.specs.cell_core.Formed.{AreFormed};
ghost use Rattle.hazard_core.specs.cell_core.View.{cell_of};
ghost use Rattle.overlay_net.specs.cell_nets.Operands.{IsWide};
ghost use Rattle.row_net.specs.Table.{IsTable};
ghost use Rattle.row_net.specs.PlaceNet.Place.{width_at};
ghost use Rattle.row_net.specs.SitePlace.Pointing.{IsPointers};
ghost use Rattle.stage_net.specs.SiteTable.Tables.{AreBehind};

use block_core::name::{Name, Part};
use hazard_core::cell_core::cell::Cell;
use overlay_net::cell_nets::operand::Operand;
use row_net::place_net::take_registers;
use row_net::site_place::taking::take_pointers;
use std::alloc::{AllocError, Global};

/// What stands for cells and for their pointers, by the numbers of the cells: an operand, or nothing.
#[derive(Drop)]
pub struct StageTables<N> {
    pub table: Vec<Option<Operand<N>>>,
    pub pointers: Vec<Option<Operand<N>>>,
}

/// The tables after a place whose registers hold these cells, and then these pointers, of so many bits: in place of what stands in the tables of
/// constants and of pointers of cells that have none.
pub fn behind<P: Part>(
    alloc: Global,
    part: P,
    bits: u8,
    cells: &[Cell],
    held: &[u32],
    held_pointers: &[u32],
    constants: &[Option<Operand<Name<P>>>],
    plain: &[Option<Operand<Name<P>>>],
) -> Result<StageTables<Name<P>>, AllocError>
    requires formed { AreFormed (map_list cell_of cells.now) }
    requires bits { IsWide bits }
    requires within { All (λ k. k < length cells.now) held.now }
    requires some { All (λ k. 0 < width_at (map_list cell_of cells.now) k) held.now }
    requires pointers { All (λ k. k < length cells.now) held_pointers.now }
    requires constants { IsTable (map_list cell_of cells.now) constants.now }
    requires plain { IsPointers (map_list cell_of cells.now) bits plain.now }
    ensures { IfOk result (AreBehind part (map_list cell_of cells.now) bits held.now held_pointers.now constants.now plain.now) }
{
    let mut table = Vec::from_slice(alloc, constants)?;
    take_registers(part, cells, held, &mut table)?;
    let mut pointers = Vec::from_slice(alloc, plain)?;
    take_pointers(part, bits, held.len(), held_pointers, &mut pointers)?;
    Ok(StageTables { table, pointers })
}
