//! The registers that stand for cells after a place of the pipeline.

ghost use Rattle.std.specs.Prelude.{◌≡◌, ◌<◌, All, IfOk, length, map as map_list};
ghost use Rattle.overlay_net.specs.cell_core.Formed.{AreFormed};
ghost use Rattle.overlay_net.specs.cell_core.View.{cell_of};
ghost use Rattle.row_net.specs.Table.{IsTable};
ghost use Rattle.row_net.specs.PlaceNet.Place.{width_at, IsTaken};

use block_core::name::{Name, Part};
use cell_nets::cell_core::cell::Cell;
use cell_nets::operand::Operand;
use std::alloc::AllocError;

// How many bits a cell has.
fn width(cells: &[Cell], number: u32) -> u8
    requires formed { AreFormed (map_list cell_of cells.now) }
    requires within { number < length cells.now }
    ensures { result ≡ width_at (map_list cell_of cells.now) number }
{
    cells[number as usize].width as u8
}

/// Puts the registers of a place into a table, for the cells that it carries: they stand for these at the next place and at the exit. Of
/// 2^32 registers a part has no room for more, as where memory is out.
pub fn take_registers<P: Part>(
    part: P,
    cells: &[Cell],
    carried: &[u32],
    table: &mut Vec<Option<Operand<Name<P>>>>,
) -> Result<(), AllocError>
    requires formed { AreFormed (map_list cell_of cells.now) }
    requires table { IsTable (map_list cell_of cells.now) table.old.items }
    requires within { All (λ k. k < length cells.now) carried.now }
    requires some { All (λ k. 0 < width_at (map_list cell_of cells.now) k) carried.now }
    ensures { IfOk result (λ done. IsTaken part (map_list cell_of cells.now) carried.now table.old.items table.new.items) }
{
    for (i, number) in carried.iter().enumerate() {
        let Ok(register) = u32::try_from(i) else {
            return Err(AllocError);
        };
        let width = width(cells, *number);
        table[*number as usize] = Some(Operand::Net(Name::Register(part, register), width));
    }
    Ok(())
}
