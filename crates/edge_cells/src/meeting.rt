//! What edges bring to a part of a machine, as one cell or pointer.

ghost use Rattle.std.specs.Prelude.{ℕ, suc, ◌≡◌, ◌<◌, ◌≤◌, true, false, length, IfOk, All};
ghost use Rattle.kind_core.specs.Kinds.{key_bytes};
ghost use Rattle.cell_core.specs.Formed.{AreFormed};
ghost use Rattle.operator_cells.specs.Making.{seen};
ghost use Rattle.operator_cells.specs.Rising.{Rises, RiseAll};
ghost use Rattle.operator_cells.specs.HeldCells.RegisterCells.{pointed, pointer_of, pointer_at};
ghost use Rattle.operator_cells.specs.HeldCells.Rows.{cells_of_pointer};
ghost use Rattle.edge_cells.specs.Widening.{AreWider};
ghost use Rattle.edge_cells.specs.Meeting.{IsPart, held_at, kind_at, Picks, number_brought, BringNumbers, cell_in, cell_brought, BringCells, PickWords, PicksPointer, words_of, is_known, is_unknown, map_of, AreWays, MeetsMore};
ghost use Rattle.edge_cells.specs.Rows.{choice_row, number_row_brought, pointer_row_brought, MeetsTo};
ghost use Rattle.edge_cells.specs.Pointing.{Follows, MeetsPointer};

use crate::part::{Part, held_at, kind_at, number_in};
use cell_core::cell::{Cell, Cells};
use kind_core::{Kind, Kinds, Number};
use operator_cells::held_cells::machine_cells::Pointer;
use operator_cells::held_cells::operand::number_cell;
use operator_cells::held_cells::way::Way;
use operator_cells::joining::{Arm, choose};
use std::alloc::AllocError;
use xdp_machine::xdp_maps::decl::MapDecl;

// The number that edges bring.
fn meet_numbers(cells: &mut Vec<Cell>, ways: &[Way], part: Part) -> Result<u32, AllocError>
    requires formed { AreFormed (seen cells.old.items) }
    requires some { 1 ≤ length ways.now }
    requires part { IsPart part }
    requires there { BringNumbers (length (seen cells.old.items)) ways.now part }
    ensures picks { IfOk result (λ c. Picks (seen cells.old.items) (seen cells.new.items) ways.now (number_brought part) c) }
    ensures rises { IfOk result (λ c. Rises (seen cells.old.items) (seen cells.new.items) c (λ row. choice_row row (number_row_brought part) ways.now)) }
{
    let mut arms = Vec::new(*cells.allocator());
    for way in ways {
        let number = number_in(kind_at(part, &way.kinds));
        let cell = number_cell(cells, number, held_at(part, &way.held))?;
        arms.push(Arm { bit: way.bit, cell })?;
    }
    let c = choose(cells, &arms)?;
    Ok(c)
}

// A cell of a pointer: the found bit, or a word of the key.
fn cell_in(pointer: &Pointer, j: usize) -> u32
    requires { j ≤ length pointer.now.key.items }
    ensures { result ≡ cell_in (pointer_of pointer.now) j }
{
    if j == 0 {
        return pointer.found;
    }
    pointer.key[j - 1]
}

// One cell of the pointers that edges bring.
fn meet_cell(
    cells: &mut Vec<Cell>,
    pointers: &[Pointer],
    ways: &[Way],
    part: Part,
    j: usize,
) -> Result<u32, AllocError>
    requires formed { AreFormed (seen cells.old.items) }
    requires some { 1 ≤ length ways.now }
    requires part { IsPart part }
    requires there { BringCells (length (seen cells.old.items)) (pointed pointers.now) ways.now part j }
    ensures picks { IfOk result (λ c. Picks (seen cells.old.items) (seen cells.new.items) ways.now (cell_brought (pointed pointers.now) part j) c) }
    ensures rises { IfOk result (λ c. Rises (seen cells.old.items) (seen cells.new.items) c (λ row. choice_row row (pointer_row_brought (pointed pointers.now) part) ways.now)) }
    ensures follows { IfOk result (λ c. Follows (seen cells.new.items) ways.now (cell_brought (pointed pointers.now) part j) c) }
{
    let mut arms = Vec::new(*cells.allocator());
    for way in ways {
        let pointer = &pointers[held_at(part, &way.held) as usize];
        arms.push(Arm {
            bit: way.bit,
            cell: cell_in(pointer, j),
        })?;
    }
    let c = choose(cells, &arms)?;
    Ok(c)
}

// The words of the keys of the pointers that edges bring.
fn meet_key(
    cells: &mut Vec<Cell>,
    pointers: &[Pointer],
    ways: &[Way],
    part: Part,
    words: usize,
) -> Result<Cells, AllocError>
    requires formed { AreFormed (seen cells.old.items) }
    requires some { 1 ≤ length ways.now }
    requires part { IsPart part }
    requires there { (j : ℕ) → j < words → BringCells (length (seen cells.old.items)) (pointed pointers.now) ways.now part (suc j) }
    ensures picks { IfOk result (λ key. PickWords (seen cells.old.items) (seen cells.new.items) (pointed pointers.now) ways.now part words key.items) }
    ensures rises { IfOk result (λ key. RiseAll (seen cells.old.items) (seen cells.new.items) key.items (λ row. choice_row row (pointer_row_brought (pointed pointers.now) part) ways.now)) }
{
    let mut key = Cells::new(*cells.allocator());
    for j in 0..words {
        let c = meet_cell(cells, pointers, ways, part, j + 1)?;
        key.push(c)?;
    }
    Ok(key)
}

// The pointers that edges bring, as one.
fn meet_pointers(
    cells: &mut Vec<Cell>,
    pointers: &mut Vec<Pointer>,
    ways: &[Way],
    part: Part,
    words: usize,
) -> Result<u32, AllocError>
    requires formed { AreFormed (seen cells.old.items) }
    requires some { 1 ≤ length ways.now }
    requires part { IsPart part }
    requires there { (j : ℕ) → j ≤ words → BringCells (length (seen cells.old.items)) (pointed pointers.old.items) ways.now part j }
    ensures picks { IfOk result (λ c. PicksPointer (seen cells.old.items) (seen cells.new.items) (pointed pointers.old.items) (pointed pointers.new.items) ways.now part words c) }
    ensures rises { IfOk result (λ c. RiseAll (seen cells.old.items) (seen cells.new.items) (cells_of_pointer (pointer_at (pointed pointers.new.items) c)) (λ row. choice_row row (pointer_row_brought (pointed pointers.old.items) part) ways.now)) }
    ensures follows { IfOk result (λ c. Follows (seen cells.new.items) ways.now (cell_brought (pointed pointers.old.items) part 0) (pointer_at (pointed pointers.new.items) c).found) }
{
    let Ok(at) = u32::try_from(pointers.len()) else {
        return Err(AllocError);
    };
    let found = meet_cell(cells, pointers, ways, part, 0)?;
    let key = meet_key(cells, pointers, ways, part, words)?;
    pointers.push(Pointer { found, key })?;
    Ok(at)
}

// How many words the keys of a map have.
fn key_words(decls: &[MapDecl], q: u32) -> usize
    ensures { result ≡ words_of (key_bytes decls.now q) }
{
    match decls.get(q as usize) {
        Some(decl) => decl.key.div_ceil(8) as usize,
        None => 0,
    }
}

// Whether a number is known.
fn is_known(kind: Kind) -> bool
    ensures { result ≡ is_known kind }
{
    matches!(kind, Kind::Num(Number::Known(_)))
}

// The map that a pointer to an entry leads into.
fn map_of(kind: Kind) -> Option<u32>
    ensures { result ≡ map_of kind }
{
    match kind {
        Kind::Maybe(q, _) | Kind::Entry(q, _) => Some(q),
        _ => None,
    }
}

// Whether a kind is a number that is not known.
fn is_unknown(kind: Kind) -> bool
    ensures { result ≡ is_unknown kind }
{
    matches!(kind, Kind::Num(Number::Between(_, _)))
}

// Whether all edges bring one cell, or one pointer.
fn agree(ways: &[Way], part: Part, cell: u32) -> bool
    requires { IsPart part }
    ensures all { result ≡ true → All (λ e. (is_known (kind_at part e.kinds) ≡ false) × (held_at part e.held ≡ cell)) ways.now }
    ensures only { All (λ e. (is_known (kind_at part e.kinds) ≡ false) × (held_at part e.held ≡ cell)) ways.now → result ≡ true }
{
    for way in ways {
        if is_known(kind_at(part, &way.kinds)) {
            return false;
        }
        if held_at(part, &way.held) != cell {
            return false;
        }
    }
    true
}

/// What edges bring to a part of a machine, by its kind where they meet: of a number that is not known a cell, of an answer of a lookup or
/// a place in an entry a pointer, else nothing. Where all bring one it is that.
pub fn meet(
    cells: &mut Vec<Cell>,
    pointers: &mut Vec<Pointer>,
    decls: &[MapDecl],
    ways: &[Way],
    kinds: &Kinds,
    part: Part,
) -> Result<u32, AllocError>
    requires formed { AreFormed (seen cells.old.items) }
    requires some { 1 ≤ length ways.now }
    requires part { IsPart part }
    requires there { AreWays decls.now (seen cells.old.items) (pointed pointers.old.items) ways.now }
    requires wider { All (λ e. AreWider kinds.now e.kinds) ways.now }
    ensures meets { IfOk result (λ c. MeetsMore decls.now (seen cells.old.items) (seen cells.new.items) (pointed pointers.old.items) (pointed pointers.new.items) ways.now part (kind_at part kinds.now) c) }
    ensures rises { IfOk result (λ c. MeetsTo (seen cells.old.items) (seen cells.new.items) (pointed pointers.old.items) (pointed pointers.new.items) ways.now kinds.now part c) }
    ensures points { IfOk result (λ c. MeetsPointer decls.now (seen cells.new.items) (pointed pointers.old.items) (pointed pointers.new.items) ways.now part (kind_at part kinds.now) c) }
{
    let first = held_at(part, &ways[0].held);
    if agree(ways, part, first) {
        return Ok(first);
    }
    let kind = kind_at(part, kinds);
    if let Some(q) = map_of(kind) {
        let c = meet_pointers(cells, pointers, ways, part, key_words(decls, q))?;
        return Ok(c);
    }
    if is_unknown(kind) {
        let c = meet_numbers(cells, ways, part)?;
        return Ok(c);
    }
    Ok(0)
}
