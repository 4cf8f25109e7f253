//! Numbers as operands.

ghost use Rattle.std.specs.Prelude.{◌≡◌, ◌<◌, length, IfOk};
ghost use Rattle.operator_cells.specs.Making.{seen, Makes};
ghost use Rattle.operator_cells.specs.Rising.{Rises};
ghost use Rattle.operator_cells.specs.HeldCells.RegisterCells.{number_of, IsThere};
ghost use Rattle.operator_cells.specs.HeldCells.Rows.{number_row};

use crate::cells::constant;
use cell_core::cell::Cell;
use kind_core::Number;
use std::alloc::AllocError;

/// The cell of a number: of one that is known a constant, else the one that holds it.
pub fn number_cell(cells: &mut Vec<Cell>, number: Number, held: u32) -> Result<u32, AllocError>
    requires { IsThere (length (seen cells.old.items)) number held }
    ensures makes { IfOk result (λ c. Makes (seen cells.old.items) (seen cells.new.items) c (λ packet v. number_of v number held)) }
    ensures rises { IfOk result (λ c. Rises (seen cells.old.items) (seen cells.new.items) c (λ row. number_row row number held)) }
{
    match number {
        Number::Known(n) => {
            let c = constant(cells, n, 64)?;
            Ok(c)
        }
        Number::Between(_, _) => Ok(held),
    }
}
