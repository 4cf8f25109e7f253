// Cells that are there already, instead of new ones.

ghost use Rattle.std.specs.Prelude.{ℕ, ◌≡◌, ◌<◌, ◌≤◌, false, [], ◌∷◌, length, All, IfOk, IfSome, IsTrue, ◌+◌};
ghost use Rattle.cell_core.specs.Cells.{is_read, bit, is_heavy};
ghost use Rattle.cell_core.specs.Formed.{takes, divides, AreInputs, IsInRange};
ghost use Rattle.cell_core.specs.Rows.{greatest};
ghost use Rattle.cell_core.specs.View.{cell_of};
ghost use Rattle.operator_cells.specs.Making.{seen, IsAlone, Makes, operated};
ghost use Rattle.operator_cells.specs.Rising.{Rises};
ghost use Rattle.operator_cells.specs.Standing.{Stands};

use crate::cells::operate;
use cell_core::cell::Cell;
use cell_core::operator::Operator;
use std::alloc::AllocError;

// Whether two operators are one, of those whose cells are shared: numbers, parts and what is put together.
fn same_operator(a: Operator, b: Operator) -> bool
    ensures { IsTrue result → a ≡ b }
{
    match (a, b) {
        (Operator::Constant(m), Operator::Constant(n)) => m == n,
        (Operator::Join(m), Operator::Join(n)) => m == n,
        (Operator::Wire, Operator::Wire) => true,
        _ => false,
    }
}

// Whether a cell is of this operator, these inputs and bits.
fn same_cell(cell: &Cell, op: Operator, ins: &[u32], from: u32, width: u32) -> bool
    ensures { IsTrue result → cell_of cell.now ≡ record { op = op; ins = ins.now; width = width; from = from } }
{
    if same_operator(cell.op, op) && cell.from == from && cell.width == width {
        return cell.ins.as_slice() == ins;
    }
    false
}

// The first such cell.
fn find(cells: &[Cell], op: Operator, ins: &[u32], from: u32, width: u32) -> Option<u32>
    ensures { IfSome result (λ k. Stands (seen cells.now) k (record { op = op; ins = ins.now; width = width; from = from })) }
{
    for (i, cell) in cells.iter().enumerate() {
        let Ok(at) = u32::try_from(i) else {
            return None;
        };
        if same_cell(cell, op, ins, from, width) {
            return Some(at);
        }
    }
    None
}

/// The cell of an operator that reads no map and does not divide: one that is there already with the same inputs and bits, or else a new one.
/// Only numbers, parts and what is put together are looked for.
pub fn share(
    cells: &mut Vec<Cell>,
    op: Operator,
    ins: &[u32],
    from: u32,
    width: u32,
) -> Result<u32, AllocError>
    requires earlier { All (λ i. i < length (seen cells.old.items)) ins.now }
    requires enough { takes op ≤ length ins.now }
    requires inputs { AreInputs op ins.now }
    requires alone { IsAlone op ins.now }
    requires in_range { IsInRange op }
    requires plain { is_read op ≡ false }
    requires undivided { divides op ≡ false }
    requires from { from ≤ 63 }
    requires width { width ≤ 64 }
    ensures makes { IfOk result (λ c. Makes (seen cells.old.items) (seen cells.new.items) c (operated op ins.now from width)) }
    ensures rises { IfOk result (λ c. Rises (seen cells.old.items) (seen cells.new.items) c (λ row. greatest row ins.now + bit (is_heavy op))) }
{
    match find(cells, op, ins, from, width) {
        Some(c) => Ok(c),
        None => operate(cells, op, ins, from, width),
    }
}

/// A number, in a cell that may be there already.
pub fn shared_constant(cells: &mut Vec<Cell>, n: u64, width: u32) -> Result<u32, AllocError>
    requires { width ≤ 64 }
    ensures makes { IfOk result (λ c. Makes (seen cells.old.items) (seen cells.new.items) c (operated (Operator.Constant n) [] 0 width)) }
    ensures rises { IfOk result (λ c. Rises (seen cells.old.items) (seen cells.new.items) c (λ row. 0)) }
{
    share(cells, Operator::Constant(n), &[], 0, width)
}

/// So many bits of a cell's value, from one on, in a cell that may be there already.
pub fn shared_slice(cells: &mut Vec<Cell>, a: u32, from: u32, width: u32) -> Result<u32, AllocError>
    requires there { a < length (seen cells.old.items) }
    requires from { from ≤ 63 }
    requires width { width ≤ 64 }
    ensures makes { IfOk result (λ c. Makes (seen cells.old.items) (seen cells.new.items) c (operated Operator.Wire (a ∷ []) from width)) }
    ensures rises { IfOk result (λ c. Rises (seen cells.old.items) (seen cells.new.items) c (λ row. row a)) }
{
    share(cells, Operator::Wire, &[a], from, width)
}
