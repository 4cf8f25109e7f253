// The edges that leave a node.

ghost use Rattle.std.specs.Prelude.{◌≡◌, ◌<◌, ◌&&◌, length, IfOk, max};
ghost use Rattle.kind_core.specs.Edges.{agrees};
ghost use Rattle.cell_core.specs.Cells.{bit, on};
ghost use Rattle.operator_cells.specs.Making.{seen, MakesIf};
ghost use Rattle.operator_cells.specs.Rising.{Rises};

use crate::cells::operate;
use crate::comparing::not;
use cell_core::cell::Cell;
use cell_core::operator::Operator;
use std::alloc::AllocError;

/// The edge of an undecided jump: its guard, and its condition or the other one.
pub fn edge(
    cells: &mut Vec<Cell>,
    guard: u32,
    condition: u32,
    taken: bool,
) -> Result<u32, AllocError>
    requires guard { guard < length (seen cells.old.items) }
    requires condition { condition < length (seen cells.old.items) }
    ensures makes { IfOk result (λ c. MakesIf (seen cells.old.items) (seen cells.new.items) c (λ v. (v guard < 2) × (v condition < 2)) (λ packet v. bit (on (v guard) && agrees taken (on (v condition))))) }
    ensures rises { IfOk result (λ c. Rises (seen cells.old.items) (seen cells.new.items) c (λ row. max (row guard) (row condition))) }
{
    if taken {
        let c = operate(cells, Operator::And, &[guard, condition], 0, 1)?;
        return Ok(c);
    }
    let other = not(cells, condition)?;
    let c = operate(cells, Operator::And, &[guard, other], 0, 1)?;
    Ok(c)
}
