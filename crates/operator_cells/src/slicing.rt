// Parts of numbers, and numbers that are put together.

ghost use Rattle.std.specs.Prelude.{ℕ, ◌≡◌, ◌<◌, ◌≤◌, ◌⊎◌, length, IfOk, All, List, map as map_list};
ghost use Rattle.byteorder.specs.Endian.{little_number};
ghost use Rattle.cell_core.specs.xdp_machine.Arithmetic.{bits_in, low, extended};
ghost use Rattle.cell_core.specs.Cells.{cell_at};
ghost use Rattle.cell_core.specs.Formed.{AreFormed};
ghost use Rattle.operator_cells.specs.Making.{seen, Makes, MakesIf};
ghost use Rattle.cell_core.specs.Rows.{greatest};
ghost use Rattle.operator_cells.specs.Rising.{Rises};

use crate::cells::{operate, slice};
use crate::sharing::share;
use crate::working::bits;
use cell_core::cell::Cell;
use cell_core::laws::values_fit;
use cell_core::operator::Operator;
use cell_core::xdp_state::bpf_isa::Width;
use std::alloc::AllocError;

// The width of a cell.
fn width_of(cells: &[Cell], a: u32) -> u32
    requires formed { AreFormed (seen cells.now) }
    requires there { a < length (seen cells.now) }
    ensures width { result ≡ (cell_at (seen cells.now) a).width }
    ensures most { result ≤ 64 }
{
    cells[a as usize].width
}

/// The same value in a new cell.
pub fn copy(cells: &mut Vec<Cell>, a: u32) -> Result<u32, AllocError>
    requires formed { AreFormed (seen cells.old.items) }
    requires there { a < length (seen cells.old.items) }
    ensures makes { IfOk result (λ c. Makes (seen cells.old.items) (seen cells.new.items) c (λ packet v. v a)) }
    ensures rises { IfOk result (λ c. Rises (seen cells.old.items) (seen cells.new.items) c (λ row. row a)) }
{
    values_fit();
    let width = width_of(cells, a);
    let c = slice(cells, a, 0, width)?;
    Ok(c)
}

/// What MOV makes of a number: with a count, the sign of so many bits is extended.
pub fn extend(cells: &mut Vec<Cell>, width: Width, count: u32, a: u32) -> Result<u32, AllocError>
    requires there { a < length (seen cells.old.items) }
    requires count { count ≤ 64 }
    ensures makes { IfOk result (λ c. Makes (seen cells.old.items) (seen cells.new.items) c (λ packet v. extended (bits_in width) count (v a))) }
    ensures rises { IfOk result (λ c. Rises (seen cells.old.items) (seen cells.new.items) c (λ row. row a)) }
{
    if count == 0 {
        let c = slice(cells, a, 0, bits(width))?;
        return Ok(c);
    }
    let c = operate(cells, Operator::SignExtend(count), &[a], 0, bits(width))?;
    Ok(c)
}

/// The number that one to eight bytes are, of which the first is the lowest.
pub fn join_bytes(cells: &mut Vec<Cell>, bytes: &[u32]) -> Result<u32, AllocError>
    requires there { All (λ i. i < length (seen cells.old.items)) bytes.now }
    requires most { length bytes.now ≤ 8 }
    ensures makes { IfOk result (λ c. MakesIf (seen cells.old.items) (seen cells.new.items) c (λ v. All (λ i. v i < 256) bytes.now) (λ packet v. little_number (length bytes.now) (map_list v bytes.now))) }
    ensures rises { IfOk result (λ c. Rises (seen cells.old.items) (seen cells.new.items) c (λ row. greatest row bytes.now)) }
{
    let mut ins = Vec::from_slice(*cells.allocator(), bytes)?;
    ins.reverse();
    let width = 8 * bytes.len() as u32;
    let c = share(cells, Operator::Join(8), &ins, 0, width)?;
    Ok(c)
}
