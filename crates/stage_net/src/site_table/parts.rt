//! Which cells are those of sites.

ghost use Rattle.std.specs.Prelude.{◌≡◌, ◌<◌, ◌^◌, length, IfOk, map as map_list};
ghost use Rattle.std.specs.List.{list_any};
ghost use Rattle.hazard_core.specs.cell_core.View.{site_of, program_of};
ghost use Rattle.stage_net.specs.SiteTable.Parts.{has, takes, is_part, AreParts};

use hazard_core::cell_core::program::CellProgram;
use hazard_core::cell_core::site::Site;
use std::alloc::{AllocError, Global};

// Whether a cell is one of these.
fn has(cells: &[u32], cell: u32) -> bool
    ensures { result ≡ has cells.now cell }
{
    cells.iter().any(|c| *c == cell)
}

// Whether a site takes a cell.
fn takes(site: &Site, cell: u32) -> bool
    ensures { result ≡ takes (site_of site.now) cell }
{
    site.guard == cell || has(&site.key, cell) || has(&site.operands, cell)
}

// Whether one of some sites does.
fn some_takes(sites: &[Site], cell: u32) -> bool
    ensures { result ≡ list_any (λ s. takes s cell) (map_list site_of sites.now) }
{
    for site in sites {
        if takes(site, cell) {
            return true;
        }
    }
    false
}

// Whether a site takes a cell, or the cell reads one.
fn is_part(program: &CellProgram, cell: u32) -> bool
    requires { cell < length program.now.cells.items }
    ensures { result ≡ is_part (program_of program.now) cell }
{
    program.cells[cell as usize].op.is_read() || some_takes(&program.sites, cell)
}

/// Which cells sites take, or read sites, by their numbers.
pub fn site_parts(alloc: Global, program: &CellProgram) -> Result<Vec<bool>, AllocError>
    requires { length program.now.cells.items < 2 ^ 32 }
    ensures { IfOk result (λ parts. AreParts (program_of program.now) parts.items) }
{
    let mut parts = Vec::new(alloc);
    for number in 0..program.cells.len() as u32 {
        parts.push(is_part(program, number))?;
    }
    Ok(parts)
}
