// Where edges meet.

ghost use Rattle.std.specs.Prelude.{ℕ, ◌≡◌, ◌<◌, ◌≤◌, true, length, IfOk, All, slice_index, map as map_list};
ghost use Rattle.std.specs.List.{list_any};
ghost use Rattle.cell_core.specs.Cells.{bit, on, cell_at};
ghost use Rattle.cell_core.specs.Formed.{AreFormed};
ghost use Rattle.operator_cells.specs.Making.{seen, Makes};
ghost use Rattle.operator_cells.specs.Joining.{chosen, followed, flat, AreThere};
ghost use Rattle.operator_cells.specs.Following.{IsFollowed};
ghost use Rattle.cell_core.specs.Rows.{greatest};
ghost use Rattle.operator_cells.specs.Rising.{Rises};

use crate::cells::operate;
use cell_core::cell::{Cell, Cells};
use cell_core::laws::values_fit;
use cell_core::operator::Operator;
use std::alloc::{AllocError, Global};

/// Of an edge the cell that is 1 where it is on the path, and the cell that it brings to a place.
#[derive(Copy, Clone)]
pub struct Arm {
    pub bit: u32,
    pub cell: u32,
}

/// The bits of edges as one: 1 where one of them is on the path.
pub fn guard(cells: &mut Vec<Cell>, bits: &[u32]) -> Result<u32, AllocError>
    requires there { All (λ i. i < length (seen cells.old.items)) bits.now }
    ensures makes { IfOk result (λ c. Makes (seen cells.old.items) (seen cells.new.items) c (λ packet v. bit (list_any on (map_list v bits.now)))) }
    ensures rises { IfOk result (λ c. Rises (seen cells.old.items) (seen cells.new.items) c (λ row. greatest row bits.now)) }
{
    let c = operate(cells, Operator::Any, bits, 0, 1)?;
    Ok(c)
}

// Whether all edges bring one cell.
fn are_one(arms: &[Arm], cell: u32) -> bool
    ensures all { result ≡ true → All (λ a. a.cell ≡ cell) arms.now }
    ensures only { All (λ a. a.cell ≡ cell) arms.now → result ≡ true }
{
    for arm in arms {
        if arm.cell != cell {
            return false;
        }
    }
    true
}

/// The bits and the cells.
pub fn flat(alloc: Global, arms: &[Arm]) -> Result<Cells, AllocError>
    ensures { IfOk result (λ ins. ins.items ≡ flat arms.now) }
{
    let mut ins = Cells::new(alloc);
    for arm in arms {
        ins.push(arm.bit)?;
        ins.push(arm.cell)?;
    }
    Ok(ins)
}

// The greater one of two numbers.
fn greater(a: u32, b: u32) -> u32
    ensures left { a ≤ result }
    ensures right { b ≤ result }
    ensures most { a ≤ 64 → b ≤ 64 → result ≤ 64 }
{
    if a < b { b } else { a }
}

// The greatest width of the cells that edges bring.
fn widest(cells: &[Cell], arms: &[Arm]) -> u32
    requires formed { AreFormed (seen cells.now) }
    requires there { AreThere (seen cells.now) arms.now }
    ensures wide { All (λ a. (cell_at (seen cells.now) a.cell).width ≤ result) arms.now }
    ensures most { result ≤ 64 }
{
    let mut width = 0;
    for arm in arms {
        width = greater(width, cells[arm.cell as usize].width);
    }
    width
}

/// Of the cells that edges bring to a place that of the edge on the path. Where all bring one, it is that.
pub fn choose(cells: &mut Vec<Cell>, arms: &[Arm]) -> Result<u32, AllocError>
    requires formed { AreFormed (seen cells.old.items) }
    requires some { 1 ≤ length arms.now }
    requires there { AreThere (seen cells.old.items) arms.now }
    ensures makes { IfOk result (λ c. Makes (seen cells.old.items) (seen cells.new.items) c (λ packet v. chosen v arms.now)) }
    ensures rises { IfOk result (λ c. Rises (seen cells.old.items) (seen cells.new.items) c (λ row. greatest row (flat arms.now))) }
    ensures same { IfOk result (λ c. (cell : ℕ) → All (λ a. a.cell ≡ cell) arms.now → (c ≡ cell) × (seen cells.new.items ≡ seen cells.old.items)) }
    ensures follows { IfOk result (λ c. (v u : ℕ → ℕ) → IsFollowed (seen cells.new.items) v u → u c ≡ followed v u arms.now) }
{
    values_fit();
    let first = arms[0].cell;
    if are_one(arms, first) {
        return Ok(first);
    }
    let ins = flat(*cells.allocator(), arms)?;
    let width = widest(cells, arms);
    let c = operate(cells, Operator::Phi, &ins, 0, width)?;
    Ok(c)
}
