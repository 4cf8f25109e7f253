//! The place of a row that reads maps.

ghost use Rattle.std.specs.Prelude.{ℕ, Bool, ◌≡◌, ◌<◌, ◌⊎◌, false, List, All, Contains, IfOk, slice_index};
ghost use Rattle.block_core.specs.net_core.Value.{Env};
ghost use Rattle.block_core.specs.ProductBlocks.Alone.{IsApartAlone};
ghost use Rattle.block_core.specs.declared.name.Name.{Name};
ghost use Rattle.block_core.specs.Parts.{Solve};
ghost use Rattle.block_core.specs.View.{block_of};
ghost use Rattle.hazard_core.specs.cell_core.View.{program_of};
ghost use Rattle.overlay_net.specs.cell_nets.declared.operand.Operand.{Operand};
ghost use Rattle.overlay_net.specs.cell_nets.declared.operand.Operand.TheVariants.{Net};
ghost use Rattle.overlay_net.specs.cell_nets.Wires.{behind, wires_of, AreWires};
ghost use Rattle.row_net.specs.Table.{IsTable};
ghost use Rattle.row_net.specs.Apart.{TakeClean, KeepApart};
ghost use Rattle.row_net.specs.PlaceNet.Place.{width_at};
ghost use Rattle.row_net.specs.SitePlace.Pointing.{IsPointers};
ghost use Rattle.row_net.specs.SitePlace.PointerNets.{BothThere};
ghost use Rattle.stage_net.specs.Nets.{decls_of, AreNets, NetsAreThere};
ghost use Rattle.stage_net.specs.Staged.{IsStaged};
ghost use Rattle.stage_net.specs.Rows.{IsReadHere, IsHad, IsPointerHad};
ghost use Rattle.stage_net.specs.Stage.{CanMake, CanPoint, IsStage};

use crate::reads::reads;
use crate::row::{ProgramRow, StageNets};
use block_core::block::{Block, BlockWire};
use block_core::name::{Name, Part};
use overlay_net::cell_nets::operand::Operand;
use row_net::site_place::laws::pointers_are_held;
use row_net::site_place::placing::site_place;
use std::alloc::{AllocError, Global};

/// What a place makes and holds: the cells and the pointers that it makes from others, and those that its registers take.
#[derive(Copy, Clone)]
pub struct StageCells<'a> {
    pub made: &'a [u32],
    pub held: &'a [u32],
    pub made_pointers: &'a [u32],
    pub held_pointers: &'a [u32],
}

/// The place of a row that reads maps: after wires that it has, those of what the sites read in the row, each site once, and then a place where
/// packets may stay, whose tables have the reads.
///
/// The tables say what stands for cells and for the numbers of pointers before the place. In a clock in which the net `advance`, of one bit, is 1, the
/// registers take what the packet holds after the row; else they keep what they hold.
pub fn stage<P: Part>(
    alloc: Global,
    part: P,
    at: &ProgramRow<'_>,
    nets: &StageNets<'_, Name<P>>,
    advance: Name<P>,
    wires: Vec<BlockWire<Name<P>>>,
    table: Vec<Option<Operand<Name<P>>>>,
    pointers: Vec<Option<Operand<Name<P>>>>,
    cells: &StageCells<'_>,
) -> Result<Block<Name<P>>, AllocError>
    requires staged { IsStaged (program_of at.now.program.now) (slice_index at.now.rows.now) (decls_of nets.now.maps.now) nets.now.bits }
    requires nets { AreNets (program_of at.now.program.now) nets.now }
    requires table { IsTable (program_of at.now.program.now).cells table.items }
    requires pointers { IsPointers (program_of at.now.program.now).cells nets.now.bits pointers.items }
    requires ready { CanMake (program_of at.now.program.now).cells (IsHad (program_of at.now.program.now) (slice_index at.now.rows.now) at.now.row table.items) cells.now.made.now }
    requires held { All (λ k. IsHad (program_of at.now.program.now) (slice_index at.now.rows.now) at.now.row table.items k ⊎ Contains cells.now.made.now k) cells.now.held.now }
    requires some { All (λ k. 0 < width_at (program_of at.now.program.now).cells k) cells.now.held.now }
    requires pointed { CanPoint (program_of at.now.program.now).cells (IsHad (program_of at.now.program.now) (slice_index at.now.rows.now) at.now.row table.items) (IsPointerHad (program_of at.now.program.now) (slice_index at.now.rows.now) at.now.row pointers.items) cells.now.made.now cells.now.made_pointers.now }
    requires held_pointers { All (λ k. IsPointerHad (program_of at.now.program.now) (slice_index at.now.rows.now) at.now.row pointers.items k ⊎ Contains cells.now.made_pointers.now k) cells.now.held_pointers.now }
    requires of_row { All (λ k. slice_index at.now.rows.now k ≡ at.now.row) cells.now.made_pointers.now }
    ensures block { (outside : List (Operand (Name P))) → Contains outside (Net advance 1) → BothThere part outside (wires_of wires.items) table.items pointers.items → NetsAreThere (behind part outside (wires_of wires.items)) nets.now
        → IfOk result (λ b. IsStage part (program_of at.now.program.now) (slice_index at.now.rows.now) at.now.row nets.now cells.now.made.now cells.now.held.now cells.now.made_pointers.now cells.now.held_pointers.now outside table.items pointers.items advance (block_of b)) }
    ensures begun { IfOk result (λ b. (v : Env (Name P)) → Solve v part 0 (block_of b).wires → Solve v part 0 (wires_of wires.items)) }
    ensures apart { (clean : ℕ → Bool) (marks : List Bool) → TakeClean clean (program_of at.now.program.now).cells cells.now.made.now → ((k : ℕ) → IsReadHere (program_of at.now.program.now) (slice_index at.now.rows.now) at.now.row k → clean k ≡ false) → KeepApart part clean marks (wires_of wires.items) table.items → IfOk result (λ b. IsApartAlone part (block_of b)) }
{
    pointers_are_held();
    let mut wires = wires;
    let mut table = table;
    let mut pointers = pointers;
    reads(alloc, &mut wires, part, at, nets, &mut table, &mut pointers)?;
    site_place(
        alloc,
        part,
        advance,
        wires,
        &at.program.cells,
        cells.made,
        table,
        cells.held,
        nets.bits,
        cells.made_pointers,
        pointers,
        cells.held_pointers,
    )
}
