//! Which cells and pointers each place holds in registers, and which pointers it makes. The cells that it makes are those of `row_net`.

ghost use Rattle.std.specs.Prelude.{◌≡◌, ◌==◌, ◌<◌, ◌^◌, length, IfOk, map as map_list};
ghost use Rattle.std.specs.List.{list_any};
ghost use Rattle.hazard_core.specs.cell_core.View.{program_of};
ghost use Rattle.row_plan.specs.Plan.{answer_cells};
ghost use Rattle.row_net.specs.Lists.{varies};
ghost use Rattle.stage_net.specs.SiteTable.Lists.{goes_on, is_awaited, stays, is_computed, has_pointer, is_held, is_held_pointer, is_made_pointer, held_cells, held_pointers, made_pointers};

use crate::site_table::flags::flag;
use hazard_core::cell_core::program::{CellProgram, FrameByte};
use overlay_net::cell_nets::operators::is_outside;
use row_net::table::is_constant;
use row_plan::RowPlan;
use std::alloc::{AllocError, Global};

// Whether a byte of the answer's frame is a cell.
fn in_frame(frame: &[FrameByte], cell: u32) -> bool
    ensures { result ≡ list_any (λ c. c == cell) (map_list (λ b. b.cell) frame.now) }
{
    for byte in frame {
        if byte.cell == cell {
            return true;
        }
    }
    false
}

// Whether the answer takes a cell.
fn is_answer(program: &CellProgram, cell: u32) -> bool
    ensures { result ≡ list_any (λ c. c == cell) (answer_cells (program_of program.now)) }
{
    program.verdict == cell || program.target == cell || in_frame(&program.frame, cell)
}

// Whether something after the place of a row takes a cell.
fn goes_on(program: &CellProgram, plan: &RowPlan, row: u32, cell: u32) -> bool
    ensures { result ≡ goes_on (program_of program.now) plan.now row cell }
{
    row < plan.last_use(cell) || row == plan.rows() && is_answer(program, cell)
}

// Whether a cell is there in a row, and a later row or the answer takes it, or packets have not committed and it is one of a site.
fn stays(program: &CellProgram, plan: &RowPlan, parts: &[bool], row: u32, cell: u32) -> bool
    ensures { result ≡ stays (program_of program.now) plan.now parts.now row cell }
{
    plan.row_of(cell) <= row
        && (goes_on(program, plan, row, cell) || row <= plan.commit_row() && flag(parts, cell))
}

// Whether a cell is needed and is not the same for all packets.
fn varies(program: &CellProgram, needed: &[bool], cell: u32) -> bool
    requires { cell < length program.now.cells.items }
    ensures { result ≡ varies (program_of program.now) needed.now cell }
{
    flag(needed, cell) && !is_constant(&program.cells[cell as usize])
}

// Whether the place of a row computes a cell.
fn is_computed(program: &CellProgram, plan: &RowPlan, row: u32, cell: u32) -> bool
    requires { cell < length program.now.cells.items }
    ensures { result ≡ is_computed (program_of program.now) plan.now row cell }
{
    !is_outside(program.cells[cell as usize].op) && plan.row_of(cell) == row
}

// Whether the place of a row holds a cell.
fn is_held(
    program: &CellProgram,
    plan: &RowPlan,
    needed: &[bool],
    parts: &[bool],
    row: u32,
    cell: u32,
) -> bool
    requires { cell < length program.now.cells.items }
    ensures { result ≡ is_held (program_of program.now) plan.now needed.now parts.now row cell }
{
    varies(program, needed, cell) && stays(program, plan, parts, row, cell)
}

// Whether it holds the pointer of a cell.
fn is_held_pointer(
    program: &CellProgram,
    plan: &RowPlan,
    needed: &[bool],
    parts: &[bool],
    points: &[bool],
    row: u32,
    cell: u32,
) -> bool
    ensures { result ≡ is_held_pointer (program_of program.now) plan.now needed.now parts.now points.now row cell }
{
    flag(needed, cell) && flag(points, cell) && stays(program, plan, parts, row, cell)
}

// Whether it makes the pointer of a cell.
fn is_made_pointer(
    program: &CellProgram,
    plan: &RowPlan,
    needed: &[bool],
    points: &[bool],
    row: u32,
    cell: u32,
) -> bool
    requires { cell < length program.now.cells.items }
    ensures { result ≡ is_made_pointer (program_of program.now) plan.now needed.now points.now row cell }
{
    flag(needed, cell) && flag(points, cell) && is_computed(program, plan, row, cell)
}

/// The cells that the place of a row holds in registers: those that later rows or the answer take, and up to the row where packets commit those of
/// sites.
pub fn held(
    alloc: Global,
    program: &CellProgram,
    plan: &RowPlan,
    needed: &[bool],
    parts: &[bool],
    row: u32,
) -> Result<Vec<u32>, AllocError>
    requires { length program.now.cells.items < 2 ^ 32 }
    ensures { IfOk result (λ cells. cells.items ≡ held_cells (program_of program.now) plan.now needed.now parts.now row) }
{
    let mut cells = Vec::new(alloc);
    for number in 0..program.cells.len() as u32 {
        if is_held(program, plan, needed, parts, row, number) {
            cells.push(number)?;
        }
    }
    Ok(cells)
}

/// The cells whose pointers it holds.
pub fn held_pointers(
    alloc: Global,
    program: &CellProgram,
    plan: &RowPlan,
    needed: &[bool],
    parts: &[bool],
    points: &[bool],
    row: u32,
) -> Result<Vec<u32>, AllocError>
    requires { length program.now.cells.items < 2 ^ 32 }
    ensures { IfOk result (λ cells. cells.items ≡ held_pointers (program_of program.now) plan.now needed.now parts.now points.now row) }
{
    let mut cells = Vec::new(alloc);
    for number in 0..program.cells.len() as u32 {
        if is_held_pointer(program, plan, needed, parts, points, row, number) {
            cells.push(number)?;
        }
    }
    Ok(cells)
}

/// The cells whose pointers the place of a row makes: copies and joins.
pub fn made_pointers(
    alloc: Global,
    program: &CellProgram,
    plan: &RowPlan,
    needed: &[bool],
    points: &[bool],
    row: u32,
) -> Result<Vec<u32>, AllocError>
    requires { length program.now.cells.items < 2 ^ 32 }
    ensures { IfOk result (λ cells. cells.items ≡ made_pointers (program_of program.now) plan.now needed.now points.now row) }
{
    let mut cells = Vec::new(alloc);
    for number in 0..program.cells.len() as u32 {
        if is_made_pointer(program, plan, needed, points, row, number) {
            cells.push(number)?;
        }
    }
    Ok(cells)
}
