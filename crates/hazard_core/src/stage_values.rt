//! What a packet holds of the cells of its program.

ghost use Rattle.std.specs.Prelude.{◌≡◌, length, replicate, IfOk, map as map_list};
ghost use Rattle.std.proofs.Common.{get_or};
ghost use Rattle.cell_core.specs.View.{program_of, site_of};

use crate::pointer::Pointer;
use cell_core::program::CellProgram;
use cell_core::site::{Act, Site};
use std::alloc::{AllocError, Global};
use std::marker::Model;

/// By cell, a value, and beside it the pointer of a cell that is one. Contracts see a `StageValues`.
#[derive(Drop)]
pub struct StageValues {
    values: Vec<u64>,
    pointers: Vec<Pointer>,
}

impl Model for StageValues {
    ghost use Rattle.hazard_core.specs.StageValues.{StageValues};

    ghost Value = { StageValues };

    ghost view = { λ h. record { values = h.values.items; pointers = h.pointers.items } };
}

impl StageValues {
    ghost use Rattle.hazard_core.specs.StageValues.{Null, stage_value, pointer_in, with_cell, guard_on, access_pointer};
    ghost use Rattle.hazard_core.specs.Rows.{nothing_held};

    /// Before the first row.
    pub fn new(alloc: Global, program: &CellProgram) -> Result<StageValues, AllocError>
        ensures { IfOk result (λ h. h ≡ nothing_held (program_of program.now)) }
    {
        let count = program.cells.len();
        Ok(StageValues {
            values: vec![in alloc; 0; count]?,
            pointers: vec![in alloc; Pointer::Null; count]?,
        })
    }

    /// Holds nothing any more.
    pub fn clear(&mut self)
        ensures { self.new ≡ record { values = replicate (length self.old.values) 0; pointers = replicate (length self.old.pointers) Null } }
    {
        self.values.fill(0);
        self.pointers.fill(Pointer::Null);
    }

    /// The value of a cell, 0 past the last.
    pub fn value(&self, cell: usize) -> u64
        ensures { result ≡ stage_value self.now cell }
    {
        if cell < self.values.len() {
            self.values[cell]
        } else {
            0
        }
    }

    /// The pointer of a cell.
    pub fn pointer(&self, cell: usize) -> Pointer
        ensures { result ≡ pointer_in self.now cell }
    {
        if cell < self.pointers.len() {
            self.pointers[cell]
        } else {
            Pointer::Null
        }
    }

    /// The values of all cells.
    pub fn values(&self) -> &[u64]
        ensures { result.now ≡ self.now.values }
    {
        &self.values
    }

    /// Takes in a cell, if there is such a one.
    pub fn set(&mut self, cell: usize, value: u64, pointer: Pointer)
        ensures { self.new ≡ with_cell self.old cell value pointer }
    {
        if cell < self.values.len() {
            self.values[cell] = value;
        }
        if cell < self.pointers.len() {
            self.pointers[cell] = pointer;
        }
    }

    /// Whether the guard of a site is on.
    pub fn guard_on(&self, site: &Site) -> bool
        ensures { result ≡ guard_on self.now (site_of site.now) }
    {
        self.value(site.guard as usize) != 0
    }

    /// The value of an operand of a site, 0 past the last.
    pub fn operand(&self, site: &Site, at: usize) -> u64
        ensures { result ≡ get_or (map_list (stage_value self.now) (site_of site.now).operands) at 0 }
    {
        let operands: &[u32] = &site.operands;
        if at < operands.len() {
            self.value(operands[at] as usize)
        } else {
            0
        }
    }

    /// The pointer that a site goes through, where it is an access to an entry.
    pub fn access_pointer(&self, site: &Site) -> Pointer
        ensures { result ≡ access_pointer self.now (site_of site.now) }
    {
        let operands: &[u32] = &site.operands;
        let at = pointer_operand(site.act);
        if at < operands.len() {
            self.pointer(operands[at] as usize)
        } else {
            Pointer::Null
        }
    }
}

/// Which operand of an access is the pointer.
fn pointer_operand(act: Act) -> usize
    ensures { result ≡ pointer_operand act }
{
    match act {
        Act::Store(..) => 1,
        Act::Atomic(..) => 2,
        _ => 0,
    }
}

ghost use Rattle.hazard_core.specs.StageValues.{pointer_operand};
