//! Which reads of a packet a change of a table touches.

ghost use Rattle.std.specs.Prelude.{◌≡◌, ◌<◌, length, slice_index, filter, nat_lt, nat_le, [], ◌∷◌, not, map as map_list};
ghost use Rattle.std.specs.List.{list_any};
ghost use Rattle.cell_core.specs.Formed.{AllFit, FitsMap};
ghost use Rattle.cell_core.specs.View.{program_of, site_of};
ghost use Rattle.std.specs.Str.{bytes_eq};
ghost use Rattle.cell_core.specs.Sites.{site_at, operation_with};
ghost use Rattle.hazard_core.specs.Tables.{decl_of};
ghost use Rattle.hazard_core.specs.StageValues.{stage_value, asked, asked_key, is_null, pointer_in, found_cell};
ghost use Rattle.hazard_core.specs.Marks.{key_touched, entry_touched, presence_touched, touched_as, touches, known_on, known_off, has_read, is_marked};

use crate::change::Change;
use crate::operation::key_of;
use crate::pending::row_in;
use crate::pointer::Pointer;
use crate::site::{answer_cell, found_cell, site_at};
use crate::stage_values::StageValues;
use crate::tables::Tables;
use cell_core::program::CellProgram;
use cell_core::site::{Act, Site};
use xdp_maps::decl::MapKind;

/// Whether an operation of a site sees that a key comes or goes, having found its own or not.
fn key_touched(
    act: Act,
    tables: &Tables,
    held: &StageValues,
    site: &Site,
    found: bool,
    changed: &[u8],
) -> bool
    requires { FitsMap tables.now.decls (site_of site.now) }
    ensures { result ≡ key_touched (operation_with (decl_of tables.now.decls site.now.map) act (map_list (stage_value held.now) site.now.key.items) (map_list (stage_value held.now) site.now.operands.items)) found changed.now }
{
    match act {
        Act::Lookup | Act::Delete => key_of(tables, held, site).as_slice() == changed,
        Act::Update => {
            let flags = held.operand(site, 0);
            let same = key_of(tables, held, site).as_slice() == changed;
            flags <= 2 && (same || (flags < 2 && !found))
        }
        _ => false,
    }
}

/// The key of a pending entry is a change's. There is no key past the last site.
fn is_key_of(
    program: &CellProgram,
    tables: &Tables,
    held: &StageValues,
    i: usize,
    key: &[u8],
) -> bool
    requires { AllFit tables.now.decls (program_of program.now).sites }
    ensures { result ≡ bytes_eq (asked_key tables.now.decls held.now (site_at (program_of program.now).sites i)) key.now }
{
    if i < program.sites.len() {
        key_of(tables, held, site_at(program, i)).as_slice() == key
    } else {
        key.is_empty()
    }
}

/// Whether a change touches the entry that a pointer is to.
fn entry_touched(
    program: &CellProgram,
    tables: &Tables,
    held: &StageValues,
    change: &Change,
    under: Pointer,
) -> bool
    requires { AllFit tables.now.decls (program_of program.now).sites }
    ensures { result ≡ entry_touched (program_of program.now) tables.now.decls held.now change.now under }
{
    match under {
        Pointer::Null => false,
        Pointer::InSlot(n) => n == change.slot,
        Pointer::Pending(i) => is_key_of(program, tables, held, i, change.key.as_slice()),
    }
}

/// Whether a change touches what site j finds under its key.
fn presence_touched(
    program: &CellProgram,
    tables: &Tables,
    held: &StageValues,
    j: usize,
    change: &Change,
) -> bool
    requires site { j < length program.now.sites.items }
    requires fits { AllFit tables.now.decls (program_of program.now).sites }
    ensures { let p = program_of program.now in let s = site_at p.sites j in
        result ≡ presence_touched (decl_of tables.now.decls s.map).kind (asked tables.now.decls held.now s) (not (is_null (pointer_in held.now (found_cell p.cells j)))) change.now }
{
    let site = site_at(program, j);
    let found = !held.pointer(found_cell(program, j)).is_null();
    match tables.decl(site.map).kind {
        MapKind::Hash => change.presence
            && key_touched(site.act, tables, held, site, found, change.key.as_slice()),
        MapKind::Array => false,
    }
}

/// Whether a change touches what an operation of site j reads.
fn touched_as(
    act: Act,
    program: &CellProgram,
    tables: &Tables,
    held: &StageValues,
    j: usize,
    change: &Change,
) -> bool
    requires site { j < length program.now.sites.items }
    requires fits { AllFit tables.now.decls (program_of program.now).sites }
    ensures { result ≡ touched_as act (program_of program.now) tables.now.decls held.now j change.now }
{
    let site = site_at(program, j);
    match act {
        Act::Load(..) => entry_touched(program, tables, held, change, held.access_pointer(site)),
        Act::Atomic(_, atomic) => {
            atomic.fetch && entry_touched(program, tables, held, change, held.access_pointer(site))
        }
        Act::Store(..) => false,
        Act::Lookup | Act::Update | Act::Delete => presence_touched(
            program, tables, held, j, change,
        ),
    }
}

/// Whether a change touches the read of site j.
pub fn touches(
    program: &CellProgram,
    tables: &Tables,
    held: &StageValues,
    j: usize,
    change: &Change,
) -> bool
    requires site { j < length program.now.sites.items }
    requires fits { AllFit tables.now.decls (program_of program.now).sites }
    ensures { result ≡ touches (program_of program.now) tables.now.decls held.now j change.now }
{
    let site = site_at(program, j);
    site.map == change.map && touched_as(site.act, program, tables, held, j, change)
}

/// Whether a site's guard stands in the rows up to one, and is on.
pub fn known_on(rows: &[u32], r: u32, held: &StageValues, site: &Site) -> bool
    ensures { result ≡ known_on (slice_index rows.now) r held.now (site_of site.now) }
{
    row_in(rows, site.guard as usize) <= r && held.guard_on(site)
}

/// Whether it stands there, and is off.
pub fn known_off(rows: &[u32], r: u32, held: &StageValues, site: &Site) -> bool
    ensures { result ≡ known_off (slice_index rows.now) r held.now (site_of site.now) }
{
    row_in(rows, site.guard as usize) <= r && !held.guard_on(site)
}

/// Whether a cell stands in the rows up to one, if there is such a cell.
fn is_read(program: &CellProgram, rows: &[u32], cell: usize, r: u32) -> bool
    ensures { result ≡ list_any (λ c. nat_le (slice_index rows.now c) r) (filter (λ k. nat_lt k (length (program_of program.now).cells)) (cell ∷ [])) }
{
    cell < program.cells.len() && row_in(rows, cell) <= r
}

/// Whether a packet that holds the rows up to one has read at a site.
#[tactic(auto, using(list_laws::proofs::ListLaws::any_two))]
fn has_read(program: &CellProgram, rows: &[u32], r: u32, j: usize) -> bool
    ensures { result ≡ has_read (program_of program.now) (slice_index rows.now) r j }
{
    is_read(program, rows, found_cell(program, j), r)
        || is_read(program, rows, answer_cell(program, j), r)
}

/// Whether a change marks a packet at site j that holds the rows up to one.
pub fn is_marked(
    program: &CellProgram,
    rows: &[u32],
    tables: &Tables,
    r: u32,
    held: &StageValues,
    change: &Change,
    j: usize,
) -> bool
    requires site { j < length program.now.sites.items }
    requires fits { AllFit tables.now.decls (program_of program.now).sites }
    ensures { result ≡ is_marked (program_of program.now) (slice_index rows.now) tables.now.decls r held.now change.now j }
{
    has_read(program, rows, r, j)
        && !known_off(rows, r, held, site_at(program, j))
        && touches(program, tables, held, j, change)
}
