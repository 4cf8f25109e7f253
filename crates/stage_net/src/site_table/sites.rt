//! Operands for the cells of a site.

ghost use Rattle.std.specs.Prelude.{◌≡◌, ◌<◌, IfOk, length, map as map_list};
ghost use Rattle.hazard_core.specs.cell_core.View.{program_of};
ghost use Rattle.hazard_core.specs.cell_core.Acts.{pointer_operand};
ghost use Rattle.overlay_net.specs.SiteOperands.Sites.{operands_of};
ghost use Rattle.stage_net.specs.SiteTable.Sites.{operand_at, access_operand, IsSiteOf};

use hazard_core::cell_core::program::CellProgram;
use hazard_core::cell_core::site::Act;
use hazard_core::site::{answer_cell, found_cell, site_at};
use overlay_net::cell_nets::operand::Operand;
use overlay_net::site_operands::SiteNets;
use std::alloc::{AllocError, Global};

// What stands for a cell, 0 where the table has nothing.
fn operand<N: Copy>(table: &[Option<Operand<N>>], cell: usize) -> Operand<N>
    ensures { result ≡ operand_at table.now cell }
{
    if cell < table.len() {
        table[cell].unwrap_or(Operand::Known(0))
    } else {
        Operand::Known(0)
    }
}

// The same of several.
fn operands<N: Copy>(
    alloc: Global,
    table: &[Option<Operand<N>>],
    cells: &[u32],
) -> Result<Vec<Operand<N>>, AllocError>
    ensures { IfOk result (λ all. all.items ≡ map_list (operand_at table.now) cells.now) }
{
    cells
        .iter()
        .map(|cell| operand(table, *cell as usize))
        .collect(alloc)
}

// Which operand of an access is the pointer.
fn pointer_operand(act: Act) -> usize
    ensures { result ≡ pointer_operand act }
{
    match act {
        Act::Store(..) => 1,
        Act::Atomic(..) => 2,
        _ => 0,
    }
}

// The pointer that an access goes through.
fn access_operand<N: Copy>(pointers: &[Option<Operand<N>>], act: Act, cells: &[u32]) -> Operand<N>
    ensures { result ≡ access_operand pointers.now act cells.now }
{
    let at = pointer_operand(act);
    if at < cells.len() {
        operand(pointers, cells[at] as usize)
    } else {
        Operand::Known(0)
    }
}

/// What stands for the cells of a site, by the tables of what stands for cells and for their pointers: 0 where there is nothing.
pub fn site_nets<N: Copy>(
    alloc: Global,
    program: &CellProgram,
    table: &[Option<Operand<N>>],
    pointers: &[Option<Operand<N>>],
    site: u32,
) -> Result<SiteNets<N>, AllocError>
    requires { site < length program.now.sites.items }
    ensures { IfOk result (λ s. IsSiteOf (program_of program.now) table.now pointers.now site (operands_of s)) }
{
    let number = site as usize;
    let taken = site_at(program, number);
    let key = operands(alloc, table, &taken.key)?;
    let operands = operands(alloc, table, &taken.operands)?;
    Ok(SiteNets {
        guard: operand(table, taken.guard as usize),
        key,
        found: operand(pointers, found_cell(program, number)),
        answer: operand(table, answer_cell(program, number)),
        pointer: access_operand(pointers, taken.act, &taken.operands),
        operands,
    })
}
