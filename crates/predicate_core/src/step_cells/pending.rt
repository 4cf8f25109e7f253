//! The writes of a map that come before an operation, as cells of no bits: rows rest on them, and no value does.

ghost use Rattle.std.specs.Prelude.{ℕ, ◌≡◌, ◌<◌, ◌≤◌, ◌∷◌, true, length, All, IfOk};
ghost use Rattle.cell_core.specs.Sites.{site_at};
ghost use Rattle.cell_core.specs.View.{site_of};
ghost use Rattle.cell_core.specs.Rows.{taken_by};
ghost use Rattle.cell_core.specs.Formed.{IsBelow};
ghost use Rattle.operator_cells.specs.Making.{seen};
ghost use Rattle.operator_cells.specs.Joining.{AreThere};
ghost use Rattle.site_cells.specs.Sited.{sited};
ghost use Rattle.predicate_core.specs.StepCells.Waiting.{AreReaders, WaitsBehind, Gathers};

use cell_core::cell::Cell;
use cell_core::site::Site;
use operator_cells::cells::pending;
use operator_cells::joining::{Arm, flat};
use std::alloc::{AllocError, Global};

// The cells from one on that read a site.
fn readers(alloc: Global, cells: &[Cell], number: u32, first: usize) -> Result<Vec<u32>, AllocError>
    ensures { IfOk result (λ all. AreReaders (seen cells.now) number first all.items) }
{
    let mut all = Vec::new(alloc);
    for i in first..cells.len() {
        if cells[i].op.site() == Some(number) {
            let Ok(cell) = u32::try_from(i) else {
                return Err(AllocError);
            };
            all.push(cell)?;
        }
    }
    Ok(all)
}

// The cell of the writes that come before a site, and the cells that it takes.
fn taken(alloc: Global, site: &Site, before: u32) -> Result<Vec<u32>, AllocError>
    ensures { IfOk result (λ all. all.items ≡ before ∷ taken_by (site_of site.now)) }
{
    let mut all = Vec::from_slice(alloc, &[before, site.guard])?;
    all.extend_from_slice(&site.key)?;
    all.extend_from_slice(&site.operands)?;
    Ok(all)
}

/// The writes of a map after a node: where the node has added a site that may write, these and those that came before it, else those alone.
/// Before the node there were so many sites, and its code began at this cell.
pub fn pending_behind(
    cells: &mut Vec<Cell>,
    sites: &[Site],
    sites_before: usize,
    first: usize,
    before: u32,
) -> Result<u32, AllocError>
    requires before { before < length (seen cells.old.items) }
    requires site { sites_before < length (sited sites.now) → IsBelow (length (seen cells.old.items)) (site_at (sited sites.now) sites_before) }
    ensures { IfOk result (λ c. WaitsBehind (seen cells.old.items) (seen cells.new.items) (sited sites.now) sites_before first before c) }
{
    if sites.len() <= sites_before {
        return Ok(before);
    }
    let site = &sites[sites_before];
    if !site.act.records() {
        return Ok(before);
    }
    let Ok(number) = u32::try_from(sites_before) else {
        return Err(AllocError);
    };
    let mut ins = taken(*cells.allocator(), site, before)?;
    let reading = readers(*cells.allocator(), cells, number, first)?;
    ins.extend_from_slice(&reading)?;
    let c = pending(cells, &ins)?;
    Ok(c)
}

// Whether all edges bring one cell.
fn bring_one(arms: &[Arm], cell: u32) -> bool
    ensures one { result ≡ true → All (λ a. a.cell ≡ cell) arms.now }
    ensures only { All (λ a. a.cell ≡ cell) arms.now → result ≡ true }
{
    for arm in arms {
        if arm.cell != cell {
            return false;
        }
    }
    true
}

/// The writes of a map where edges meet: where all bring one cell it is that, else one with the bits and the cells of all.
pub fn pending_at(cells: &mut Vec<Cell>, arms: &[Arm]) -> Result<u32, AllocError>
    requires some { 1 ≤ length arms.now }
    requires there { AreThere (seen cells.old.items) arms.now }
    ensures { IfOk result (λ c. Gathers (seen cells.old.items) (seen cells.new.items) arms.now c) }
{
    let first = arms[0].cell;
    if bring_one(arms, first) {
        return Ok(first);
    }
    let ins = flat(*cells.allocator(), arms)?;
    let c = pending(cells, &ins)?;
    Ok(c)
}
