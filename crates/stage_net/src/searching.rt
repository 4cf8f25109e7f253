//! The slots under the keys that the sites of a row look for, each key of a map once.

ghost use Rattle.std.specs.Prelude.{ℕ, [], ◌∷◌, ◌++◌, ◌≡◌, ◌<◌, true, List, length, slice_index, IfOk, IfSome};
ghost use Rattle.hazard_core.specs.xdp_maps.declared.decl.MapDecl.{MapDecl};
ghost use Rattle.hazard_core.specs.cell_core.Acts.{finds_key};
ghost use Rattle.block_core.specs.Blocks.{BlockWireTree};
ghost use Rattle.block_core.specs.declared.name.Name.{Name};
ghost use Rattle.hazard_core.specs.cell_core.View.{program_of};
ghost use Rattle.overlay_net.specs.cell_nets.Wires.{wires_of};
ghost use Rattle.stage_net.specs.Nets.{decls_of, AreNets};
ghost use Rattle.stage_net.specs.Staged.{HaveTables, IsStaged};
ghost use Rattle.stage_net.specs.Rows.{IsSought, AsksSame, AreSought};

use crate::earlier::own_site;
use crate::reads::{is_read, map_at, operand_at};
use crate::row::{ProgramRow, StageNets};
use block_core::block::BlockWire;
use block_core::name::Name;
use hazard_core::cell_core::site::Act;
use hazard_core::site::{answer_cell, found_cell, site_at};
use overlay_net::cell_nets::operand::Operand;
use read_net::looking::slot_under;
use std::alloc::{AllocError, Global};

// Whether an operation looks for a key.
fn finds_key(act: Act) -> bool
    ensures { result ≡ finds_key act }
{
    matches!(act, Act::Lookup | Act::Update | Act::Delete)
}

// Whether a site that looks for a key is read in the row.
fn is_sought(at: &ProgramRow<'_>, j: u32) -> bool
    requires { j < length at.now.program.now.sites.items }
    ensures only { result ≡ true → IsSought (program_of at.now.program.now) (slice_index at.now.rows.now) at.now.row j }
    ensures all { (decls : List MapDecl) (bits : ℕ) → IsStaged (program_of at.now.program.now) (slice_index at.now.rows.now) decls bits → IsSought (program_of at.now.program.now) (slice_index at.now.rows.now) at.now.row j → result ≡ true }
{
    if !finds_key(site_at(at.program, j as usize).act) {
        return false;
    }
    let found = found_cell(at.program, j as usize);
    let answer = answer_cell(at.program, j as usize);
    is_read(at, found, answer)
}

// Whether an earlier site looks for the same key in the same map in the row.
fn asks_same(at: &ProgramRow<'_>, i: u32, j: u32) -> bool
    requires first { i < length at.now.program.now.sites.items }
    requires second { j < length at.now.program.now.sites.items }
    ensures { result ≡ true → AsksSame (program_of at.now.program.now) (slice_index at.now.rows.now) at.now.row i j }
{
    if !is_sought(at, i) {
        return false;
    }
    let first = site_at(at.program, i as usize);
    let second = site_at(at.program, j as usize);
    if first.map != second.map {
        return false;
    }
    first.key.as_slice() == second.key.as_slice()
}

// The first such site before it, if there is one.
fn same_search(at: &ProgramRow<'_>, j: u32) -> Option<u32>
    requires { j < length at.now.program.now.sites.items }
    ensures before { IfSome result (λ i. i < j) }
    ensures same { IfSome result (λ i. AsksSame (program_of at.now.program.now) (slice_index at.now.rows.now) at.now.row i j) }
{
    for i in 0..j {
        if asks_same(at, i, j) {
            return Some(i);
        }
    }
    None
}

// What stands for the slot under the key of a site, by those of the sites before it. Of a site that looks for none it is the number 0.
fn search<P: Copy>(
    alloc: Global,
    wires: &mut Vec<BlockWire<Name<P>>>,
    part: P,
    at: &ProgramRow<'_>,
    nets: &StageNets<'_, Name<P>>,
    slots: &[Operand<Name<P>>],
    j: u32,
) -> Result<Operand<Name<P>>, AllocError>
    requires staged { IsStaged (program_of at.now.program.now) (slice_index at.now.rows.now) (decls_of nets.now.maps.now) nets.now.bits }
    requires nets { AreNets (program_of at.now.program.now) nets.now }
    requires tables { HaveTables (decls_of nets.now.maps.now) }
    requires site { j < length at.now.program.now.sites.items }
    requires count { length slots.now ≡ j }
    ensures { (base : List (BlockWireTree (Name P))) → AreSought part (program_of at.now.program.now) (slice_index at.now.rows.now) at.now.row nets.now base (wires_of wires.old.items) slots.now → IfOk result (λ slot. AreSought part (program_of at.now.program.now) (slice_index at.now.rows.now) at.now.row nets.now base (wires_of wires.new.items) (slots.now ++ slot ∷ [])) }
{
    if !is_sought(at, j) {
        return Ok(Operand::Known(0));
    }
    if let Some(i) = same_search(at, j) {
        return Ok(operand_at(slots, i));
    }
    let map = map_at(nets.maps, site_at(at.program, j as usize).map);
    let site = own_site(at.program, nets.sites, j);
    slot_under(alloc, wires, part, map, site.nets)
}

/// Makes the wires that look for the keys of a row, and says what stands for the slot under the key of each site that the row reads.
pub(crate) fn searches<P: Copy>(
    alloc: Global,
    wires: &mut Vec<BlockWire<Name<P>>>,
    part: P,
    at: &ProgramRow<'_>,
    nets: &StageNets<'_, Name<P>>,
) -> Result<Vec<Operand<Name<P>>>, AllocError>
    requires staged { IsStaged (program_of at.now.program.now) (slice_index at.now.rows.now) (decls_of nets.now.maps.now) nets.now.bits }
    requires nets { AreNets (program_of at.now.program.now) nets.now }
    requires tables { HaveTables (decls_of nets.now.maps.now) }
    ensures count { IfOk result (λ slots. length slots.items ≡ length (program_of at.now.program.now).sites) }
    ensures sought { IfOk result (λ slots. AreSought part (program_of at.now.program.now) (slice_index at.now.rows.now) at.now.row nets.now (wires_of wires.old.items) (wires_of wires.new.items) slots.items) }
{
    let mut slots = Vec::new(alloc);
    for j in 0..at.program.sites.len() as u32 {
        let slot = search(alloc, wires, part, at, nets, &slots, j)?;
        slots.push(slot)?;
    }
    Ok(slots)
}
