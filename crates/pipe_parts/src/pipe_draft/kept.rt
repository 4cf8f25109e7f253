//! What is kept of frames for the cells that come with them.

ghost use Rattle.std.specs.Prelude.{ℕ, ◌≡◌, ◌<◌, true, Some, All, IfOk, OnOk, length, map as map_list};
ghost use Rattle.hazard_core.specs.cell_core.Cells.{cell_at};
ghost use Rattle.hazard_core.specs.cell_core.Formed.{IsInRange};
ghost use Rattle.hazard_core.specs.cell_core.View.{cell_of};
ghost use Rattle.frame_net.specs.declared.held.Kept.TheVariants.{Word};
ghost use Rattle.pipe_parts.specs.PipeDraft.Sources.{kept_for, IsTakenBy, AreKeptFor};
ghost use Rattle.pipe_parts.specs.PipeDraft.Keeping.{KeepsMore};

use frame_net::Kept;
use hazard_core::cell_core::cell::Cell;
use hazard_core::cell_core::operator::Operator;
use std::alloc::{AllocError, Global};

// What is to be kept of a frame for the number of an operator, beside its length.
fn kept_for(op: Operator) -> Option<Kept>
    requires { IsInRange op }
    ensures { result ≡ kept_for op }
{
    match op {
        Operator::Byte(i) => Some(Kept::Word((i / 8) as u8)),
        Operator::Ifindex => Some(Kept::Ifindex),
        Operator::Time => Some(Kept::Time),
        _ => None,
    }
}

// Whether an operator takes something that is kept.
fn takes(op: Operator, what: Kept) -> bool
    requires { IsInRange op }
    ensures yes { result ≡ true → kept_for op ≡ Some what }
    ensures all { kept_for op ≡ Some what → result ≡ true }
{
    match kept_for(op) {
        Some(kept) => kept == what,
        None => false,
    }
}

// Whether one of these cells takes something that is kept.
fn is_taken(cells: &[Cell], listed: &[u32], what: Kept) -> bool
    requires range { (k : ℕ) → k < length cells.now → IsInRange (cell_at (map_list cell_of cells.now) k).op }
    requires within { All (λ k. k < length cells.now) listed.now }
    ensures yes { result ≡ true → IsTakenBy (map_list cell_of cells.now) listed.now what }
    ensures all { IsTakenBy (map_list cell_of cells.now) listed.now what → result ≡ true }
{
    for number in listed {
        if takes(cells[*number as usize].op, what) {
            return true;
        }
    }
    false
}

// Adds something to what is kept, where one of these cells takes it.
fn keep(kept: &mut Vec<Kept>, cells: &[Cell], listed: &[u32], what: Kept) -> Result<(), AllocError>
    requires range { (k : ℕ) → k < length cells.now → IsInRange (cell_at (map_list cell_of cells.now) k).op }
    requires within { All (λ k. k < length cells.now) listed.now }
    ensures { OnOk result (KeepsMore (map_list cell_of cells.now) listed.now (λ x. x ≡ what) 1 kept.old.items kept.new.items) }
{
    if is_taken(cells, listed, what) {
        kept.push(what)?;
    }
    Ok(())
}

// Adds the words of the window of which one of these cells takes a byte.
fn keep_words(kept: &mut Vec<Kept>, cells: &[Cell], listed: &[u32]) -> Result<(), AllocError>
    requires range { (k : ℕ) → k < length cells.now → IsInRange (cell_at (map_list cell_of cells.now) k).op }
    requires within { All (λ k. k < length cells.now) listed.now }
    ensures { OnOk result (KeepsMore (map_list cell_of cells.now) listed.now (λ x. (j : ℕ) × (j < 32) × (x ≡ Word j)) 32 kept.old.items kept.new.items) }
{
    for word in 0..32 {
        keep(kept, cells, listed, Kept::Word(word))?;
    }
    Ok(())
}

/// What is kept of frames for these cells: words in their order, and after them what stands beside frames.
pub(crate) fn kept_words(
    alloc: Global,
    cells: &[Cell],
    listed: &[u32],
) -> Result<Vec<Kept>, AllocError>
    requires range { (k : ℕ) → k < length cells.now → IsInRange (cell_at (map_list cell_of cells.now) k).op }
    requires within { All (λ k. k < length cells.now) listed.now }
    ensures { IfOk result (λ kept. AreKeptFor (map_list cell_of cells.now) listed.now kept.items) }
{
    let mut kept = Vec::new(alloc);
    keep_words(&mut kept, cells, listed)?;
    keep(&mut kept, cells, listed, Kept::Ifindex)?;
    keep(&mut kept, cells, listed, Kept::Time)?;
    Ok(kept)
}
