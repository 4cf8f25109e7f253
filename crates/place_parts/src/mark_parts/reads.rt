//! The sites at which the packet at a place has read, and the registers of their marks.

ghost use Rattle.std.specs.Prelude.{◌≡◌, ◌<◌, ◌≤◌, ◌^◌, IfOk, nat_lt, nat_le, slice_index, length, filter, [], ◌∷◌};
ghost use Rattle.std.specs.List.{list_any};
ghost use Rattle.hazard_core.specs.cell_core.View.{program_of};
ghost use Rattle.hazard_core.specs.Marks.{has_read};
ghost use Rattle.pipe_net.specs.Parts.{IsSmall};
ghost use Rattle.place_parts.specs.MarkParts.Places.{IsMarkLayout, register_of, reads_in};

use crate::mark_parts::layout::MarkLayout;
use block_core::name::Name;
use hazard_core::cell_core::program::CellProgram;
use hazard_core::pending::row_in;
use hazard_core::site::{answer_cell, found_cell};
use overlay_net::cell_nets::operand::Operand;
use pipe_net::parts::{Part, Sizes};
use std::alloc::{AllocError, Global};

// Whether a cell stands in the rows up to one, if there is such a cell.
fn is_up_to(program: &CellProgram, rows: &[u32], cell: usize, row: u32) -> bool
    ensures { result ≡ list_any (λ c. nat_le (slice_index rows.now c) row) (filter (λ k. nat_lt k (length (program_of program.now).cells)) (cell ∷ [])) }
{
    cell < program.cells.len() && row_in(rows, cell) <= row
}

// Whether a packet that has the rows up to one has read at a site.
#[tactic(auto, using(list_laws::proofs::ListLaws::any_two))]
fn has_read(program: &CellProgram, rows: &[u32], row: u32, j: usize) -> bool
    ensures { result ≡ has_read (program_of program.now) (slice_index rows.now) row j }
{
    is_up_to(program, rows, found_cell(program, j), row)
        || is_up_to(program, rows, answer_cell(program, j), row)
}

/// The sites at which the packet at a place has read.
pub(crate) fn read_sites(
    alloc: Global,
    layout: &MarkLayout<'_>,
    k: u32,
) -> Result<Vec<u32>, AllocError>
    requires { IsMarkLayout layout.now }
    ensures { IfOk result (λ sites. sites.items ≡ reads_in layout.now k) }
{
    let mut sites = Vec::new(alloc);
    for j in 0..layout.program.sites.len() as u32 {
        if has_read(layout.program, layout.rows, k, j as usize) {
            sites.push(j)?;
        }
    }
    Ok(sites)
}

/// The register of a mark, by the number of its site among those at which the packet at a place has read.
pub(crate) fn register(sizes: &Sizes, k: u32, i: usize) -> Operand<Name<Part>>
    requires small { IsSmall sizes.now }
    requires place { k ≤ sizes.now.commit }
    requires few { i < 2 ^ 32 }
    ensures { result ≡ register_of sizes.now k i }
{
    Operand::Net(Name::Register(sizes.marks(k), i as u32), 1)
}
