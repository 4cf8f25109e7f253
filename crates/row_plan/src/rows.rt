// The rows in which values are made.

ghost use Rattle.std.specs.Prelude.{◌≡◌, ◌<◌, ◌^◌, ◌+◌, ◌-◌, length, slice_index, max, IfOk, map as map_list};
ghost use Rattle.cell_core.specs.Cells.{bit, is_heavy};
ghost use Rattle.cell_core.specs.Formed.{AreFormed};
ghost use Rattle.cell_core.specs.Rows.{AreRows, greatest, numbers, node_row, taken_by};
ghost use Rattle.cell_core.specs.View.{cell_of, site_of};
ghost use Rattle.row_plan.specs.Plan.{read_row, site_row};

use cell_core::cell::Cell;
use cell_core::program::Node;
use cell_core::site::Site;
use std::alloc::{AllocError, Global};

/// The row of a cell, 0 past the last.
pub(crate) fn row_in(rows: &[u32], cell: u32) -> u32
    ensures { result ≡ slice_index rows.now cell }
{
    let at = cell as usize;
    if at < rows.len() { rows[at] } else { 0 }
}

/// The greatest row of some cells, 0 where there are none.
pub(crate) fn greatest(rows: &[u32], cells: &[u32]) -> u32
    ensures { result ≡ greatest (slice_index rows.now) cells.now }
{
    let mut most = 0;
    for cell in cells {
        most = most.max(row_in(rows, *cell));
    }
    most
}

// The row of a cell after those whose rows are listed.
fn next_row(rows: &[u32], cell: &Cell) -> u32
    requires { greatest (slice_index rows.now) (cell_of cell.now).ins < 2 ^ 32 - 1 }
    ensures { result ≡ greatest (slice_index rows.now) (cell_of cell.now).ins + bit (is_heavy cell.now.op) }
{
    let most = greatest(rows, &cell.ins);
    if cell.op.is_heavy() { most + 1 } else { most }
}

/// The row of each cell.
pub(crate) fn rows_of(alloc: Global, cells: &[Cell]) -> Result<Vec<u32>, AllocError>
    requires formed { AreFormed (map_list cell_of cells.now) }
    requires few { length cells.now < 2 ^ 32 }
    ensures count { IfOk result (λ rows. length rows.items ≡ length cells.now) }
    ensures rows { IfOk result (λ rows. AreRows (map_list cell_of cells.now) (slice_index rows.items)) }
{
    let mut rows = Vec::new(alloc);
    for cell in cells {
        let row = next_row(&rows, cell);
        rows.push(row)?;
    }
    Ok(rows)
}

/// The row of a node: the greatest that it makes.
pub(crate) fn node_row(rows: &[u32], node: &Node) -> u32
    ensures { result ≡ node_row (slice_index rows.now) node.now }
{
    let mut most = 0;
    for cell in node.first..node.end {
        most = most.max(row_in(rows, cell));
    }
    most
}

/// The greatest row of what a site takes.
fn taken_row(rows: &[u32], site: &Site) -> u32
    ensures { result ≡ greatest (slice_index rows.now) (taken_by (site_of site.now)) }
{
    row_in(rows, site.guard)
        .max(greatest(rows, &site.key))
        .max(greatest(rows, &site.operands))
}

/// The greatest row of a read.
pub(crate) fn read_row(rows: &[u32], cells: &[Cell]) -> u32
    requires { length cells.now < 2 ^ 32 }
    ensures { result ≡ read_row (slice_index rows.now) 0 (map_list cell_of cells.now) }
{
    let mut most = 0;
    for number in 0..cells.len() {
        if cells[number].op.is_read() {
            most = most.max(row_in(rows, number as u32));
        }
    }
    most
}

/// The greatest row of what sites take.
pub(crate) fn site_row(rows: &[u32], sites: &[Site]) -> u32
    ensures { result ≡ site_row (slice_index rows.now) (map_list site_of sites.now) }
{
    let mut most = 0;
    for site in sites {
        most = most.max(taken_row(rows, site));
    }
    most
}
