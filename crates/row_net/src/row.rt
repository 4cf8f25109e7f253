//! Wires for the cells of a row.

ghost use Rattle.std.specs.Prelude.{ℕ, [], ◌∷◌, ◌≡◌, ◌<◌, false, All, length, IfOk, map as map_list};
ghost use Rattle.overlay_net.specs.cell_core.Cells.{cell_at};
ghost use Rattle.overlay_net.specs.cell_core.Formed.{AreFormed};
ghost use Rattle.overlay_net.specs.cell_core.View.{cell_of};
ghost use Rattle.cell_nets.specs.Computing.{is_outside};
ghost use Rattle.cell_nets.specs.Wires.{wires_of};
ghost use Rattle.row_net.specs.Table.{IsTable, IsIn};
ghost use Rattle.row_net.specs.Made.{IsReady, IsRow};

use crate::table::operands;
use block_core::block::BlockWire;
use block_core::name::Name;
use cell_nets::cell_core::cell::Cell;
use cell_nets::operand::Operand;
use cell_nets::operators::cell_wires;
use std::alloc::{AllocError, Global};

// Makes the wires of a cell.
fn make<P: Copy>(
    alloc: Global,
    wires: &mut Vec<BlockWire<Name<P>>>,
    part: P,
    cells: &[Cell],
    number: u32,
    table: &mut Vec<Option<Operand<Name<P>>>>,
) -> Result<(), AllocError>
    requires formed { AreFormed (map_list cell_of cells.now) }
    requires table { IsTable (map_list cell_of cells.now) table.old.items }
    requires within { number < length cells.now }
    requires computed { is_outside (cell_at (map_list cell_of cells.now) number).op ≡ false }
    requires inputs { All (IsIn table.old.items) (cell_at (map_list cell_of cells.now) number).ins }
    ensures { IfOk result (λ done. IsRow part (map_list cell_of cells.now) (number ∷ []) (wires_of wires.old.items) (wires_of wires.new.items) table.old.items table.new.items) }
{
    let cell = &cells[number as usize];
    let args = operands(alloc, table, &cell.ins)?;
    let out = cell_wires(
        alloc,
        wires,
        part,
        cell.op,
        &args,
        cell.width as u8,
        cell.from as u8,
    )?;
    table[number as usize] = Some(out);
    Ok(())
}

/// Makes the wires of cells in their order, and says in the table what stands for each.
pub fn row_nets<P: Copy>(
    alloc: Global,
    wires: &mut Vec<BlockWire<Name<P>>>,
    part: P,
    cells: &[Cell],
    made: &[u32],
    table: &mut Vec<Option<Operand<Name<P>>>>,
) -> Result<(), AllocError>
    requires formed { AreFormed (map_list cell_of cells.now) }
    requires table { IsTable (map_list cell_of cells.now) table.old.items }
    requires ready { IsReady (map_list cell_of cells.now) table.old.items made.now }
    ensures { IfOk result (λ done. IsRow part (map_list cell_of cells.now) made.now (wires_of wires.old.items) (wires_of wires.new.items) table.old.items table.new.items) }
{
    for number in made {
        make(alloc, wires, part, cells, *number, table)?;
    }
    Ok(())
}
