//! What stands for the cells of a program at a place.

ghost use Rattle.std.specs.Prelude.{ℕ, ◌≡◌, ◌≤◌, All, IfOk, map as map_list};
ghost use Rattle.overlay_net.specs.cell_core.Formed.{AreFormed};
ghost use Rattle.overlay_net.specs.cell_core.View.{cell_of};
ghost use Rattle.row_net.specs.Table.{is_constant, IsConstantOf, AreConstants, IsIn, AreOperands};

use cell_nets::cell_core::cell::Cell;
use cell_nets::cell_core::operator::Operator;
use cell_nets::cell_core::value::bits_from;
use cell_nets::operand::Operand;
use std::alloc::{AllocError, Global};

/// Whether a cell is the same for all packets: a constant, or a cell of no bits.
pub fn is_constant(cell: &Cell) -> bool
    ensures { result ≡ is_constant (cell_of cell.now) }
{
    cell.width == 0 || matches!(cell.op, Operator::Constant(_))
}

// The number of a cell that is the same for all packets.
fn constant<N: Copy>(cell: &Cell) -> Option<Operand<N>>
    requires width { cell.now.width ≤ 64 }
    requires from { cell.now.from ≤ 63 }
    ensures { IsConstantOf (cell_of cell.now) result }
{
    if cell.width == 0 {
        return Some(Operand::Known(0));
    }
    match cell.op {
        Operator::Constant(n) => Some(Operand::Known(bits_from(n, cell.from, cell.width))),
        _ => None,
    }
}

/// A table where numbers stand for the cells that are the same for all packets, and nothing for others.
pub fn constants<N: Copy>(
    alloc: Global,
    cells: &[Cell],
) -> Result<Vec<Option<Operand<N>>>, AllocError>
    requires { AreFormed (map_list cell_of cells.now) }
    ensures { IfOk result (λ table. AreConstants (map_list cell_of cells.now) table.items) }
{
    let mut table = Vec::new(alloc);
    for cell in cells {
        table.push(constant(cell))?;
    }
    Ok(table)
}

/// What stands for the inputs of a cell, all of which the table has.
pub(crate) fn operands<N: Copy>(
    alloc: Global,
    table: &[Option<Operand<N>>],
    ins: &[u32],
) -> Result<Vec<Operand<N>>, AllocError>
    requires { All (IsIn table.now) ins.now }
    ensures { IfOk result (λ args. AreOperands table.now ins.now args.items) }
{
    let mut args = Vec::new(alloc);
    for cell in ins {
        let operand = table[*cell as usize];
        args.push(operand.unwrap())?;
    }
    Ok(args)
}
