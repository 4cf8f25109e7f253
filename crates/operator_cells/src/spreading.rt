// Numbers as bytes: orders of bytes, and bytes that are stored over others.

ghost use Rattle.std.specs.Prelude.{◌≡◌, ◌<◌, ◌≤◌, ◌+◌, ◌⊎◌, length, IfOk, max};
ghost use Rattle.byteorder.specs.Endian.{little_number, little_bytes};
ghost use Rattle.cell_core.specs.bits_core.Bits.{reversed_of};
ghost use Rattle.cell_core.specs.xdp_maps.Calls.{patched};
ghost use Rattle.cell_core.specs.xdp_machine.Arithmetic.{low, ordered};
ghost use Rattle.cell_core.specs.xdp_machine.Memory.{bytes_in, number_at};
ghost use Rattle.operator_cells.specs.Making.{seen, Makes};
ghost use Rattle.operator_cells.specs.Spreading.{MakesBytes};
ghost use Rattle.operator_cells.specs.Rising.{Rises, RiseAll};

use crate::cells::{operate, slice};
use crate::slicing::join_bytes;
use cell_core::cell::Cell;
use cell_core::operator::Operator;
use cell_core::xdp_state::bpf_isa::{Size, Src};
use cell_core::xdp_state::memory::bytes_in;
use std::alloc::{AllocError, Global};

/// The cells of the lowest bytes of a number, the lowest first.
pub fn spread(cells: &mut Vec<Cell>, a: u32, count: u32) -> Result<Vec<u32>, AllocError>
    requires there { a < length (seen cells.old.items) }
    requires most { count ≤ 8 }
    ensures makes { IfOk result (λ bytes. MakesBytes (seen cells.old.items) (seen cells.new.items) count bytes.items (λ v. little_bytes count (v a))) }
    ensures rises { IfOk result (λ bytes. RiseAll (seen cells.old.items) (seen cells.new.items) bytes.items (λ row. row a)) }
{
    let mut bytes = Vec::new(*cells.allocator());
    for i in 0..count {
        let byte = slice(cells, a, 8 * i, 8)?;
        bytes.push(byte)?;
    }
    Ok(bytes)
}

// So many low bytes of a number in the other order.
fn reverse(cells: &mut Vec<Cell>, a: u32, count: u32) -> Result<u32, AllocError>
    requires there { a < length (seen cells.old.items) }
    requires most { count ≤ 8 }
    ensures makes { IfOk result (λ c. Makes (seen cells.old.items) (seen cells.new.items) c (λ packet v. reversed_of count (v a))) }
    ensures rises { IfOk result (λ c. Rises (seen cells.old.items) (seen cells.new.items) c (λ row. row a)) }
{
    let bytes = spread(cells, a, count)?;
    let c = operate(cells, Operator::Join(8), &bytes, 0, 8 * count)?;
    Ok(c)
}

/// The low 16, 32 or 64 bits of a number, with their bytes in an order.
pub fn order(cells: &mut Vec<Cell>, order: Src, bits: u32, a: u32) -> Result<u32, AllocError>
    requires there { a < length (seen cells.old.items) }
    requires bits { (bits ≡ 16) ⊎ ((bits ≡ 32) ⊎ (bits ≡ 64)) }
    ensures makes { IfOk result (λ c. Makes (seen cells.old.items) (seen cells.new.items) c (λ packet v. ordered order bits (v a))) }
    ensures rises { IfOk result (λ c. Rises (seen cells.old.items) (seen cells.new.items) c (λ row. row a)) }
{
    match order {
        Src::K => {
            let c = slice(cells, a, 0, bits)?;
            Ok(c)
        }
        Src::X => {
            let c = reverse(cells, a, bits / 8)?;
            Ok(c)
        }
    }
}

/// A part of a number of eight bytes.
pub fn part(cells: &mut Vec<Cell>, size: Size, at: u32, a: u32) -> Result<u32, AllocError>
    requires there { a < length (seen cells.old.items) }
    requires inside { at + bytes_in size ≤ 8 }
    ensures makes { IfOk result (λ c. Makes (seen cells.old.items) (seen cells.new.items) c (λ packet v. number_at size at (little_bytes 8 (v a)))) }
    ensures rises { IfOk result (λ c. Rises (seen cells.old.items) (seen cells.new.items) c (λ row. row a)) }
{
    let c = slice(cells, a, 8 * at, 8 * bytes_in(size) as u32)?;
    Ok(c)
}

// Cells with others in the place of some of them.
fn replaced(alloc: Global, cells: &[u32], at: usize, part: &[u32]) -> Result<Vec<u32>, AllocError>
    requires { at + length part.now ≤ length cells.now }
    ensures { IfOk result (λ all. all.items ≡ patched cells.now at part.now) }
{
    let mut all = Vec::from_slice(alloc, &cells[..at])?;
    all.extend_from_slice(part)?;
    all.extend_from_slice(&cells[at + part.len()..])?;
    Ok(all)
}

/// A number of eight bytes with the low bytes of another stored over some of its own.
pub fn patch(
    cells: &mut Vec<Cell>,
    size: Size,
    at: u32,
    old: u32,
    n: u32,
) -> Result<u32, AllocError>
    requires old { old < length (seen cells.old.items) }
    requires number { n < length (seen cells.old.items) }
    requires inside { at + bytes_in size ≤ 8 }
    ensures makes { IfOk result (λ c. Makes (seen cells.old.items) (seen cells.new.items) c (λ packet v. little_number 8 (patched (little_bytes 8 (v old)) at (little_bytes (bytes_in size) (v n))))) }
    ensures rises { IfOk result (λ c. Rises (seen cells.old.items) (seen cells.new.items) c (λ row. max (row old) (row n))) }
{
    let bytes = spread(cells, old, 8)?;
    let part = spread(cells, n, bytes_in(size) as u32)?;
    let all = replaced(*cells.allocator(), &bytes, at as usize, &part)?;
    let c = join_bytes(cells, &all)?;
    Ok(c)
}
