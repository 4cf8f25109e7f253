//! What a packet reads: the tables as they are, and over them its own earlier operations.

ghost use Rattle.std.specs.Prelude.{◌≡◌, ◌<◌, ◌≤◌, ◌^◌, ◌+◌, length, slice_index, fold, map as map_list};
ghost use Rattle.cell_core.specs.Formed.{AllFit};
ghost use Rattle.cell_core.specs.Sites.{site_at, operation_with};
ghost use Rattle.cell_core.specs.View.{program_of, site_of};
ghost use Rattle.xdp_maps.specs.Calls.{hash_refusal, array_refusal, number_of};
ghost use Rattle.xdp_maps.specs.Contents.{index_of};
ghost use Rattle.hazard_core.specs.Tables.{decl_of, table_at};
ghost use Rattle.hazard_core.specs.StageValues.{stage_value, slot_pointer, update_pointer, written_as, written_pointer, pending};
ghost use Rattle.hazard_core.specs.Answering.{number_under};
ghost use Rattle.hazard_core.specs.Overlay.{found_as, found_over, key_pointer, found_pointer, looks, value_over, value_under, entry_value, update_answer, delete_answer, answer_as, answer_over};

use crate::operation::{key_of, number_in, operate};
use crate::pending::{is_pending, keys_added, keys_taken, writes};
use crate::pointer::Pointer;
use crate::site::{found_cell, site_at};
use crate::slot::{Slot, slot_of, used_count};
use crate::stage_values::StageValues;
use crate::tables::Tables;
use byteorder::{ByteOrder, LittleEndian};
use cell_core::program::CellProgram;
use cell_core::site::{Act, Site};
use cell_core::xdp_state::memory;
use xdp_maps::decl::{MapDecl, MapKind};
use xdp_maps::errno::{E2BIG, EEXIST, EINVAL, ENOENT};
use xdp_maps::short::ShortBytes;

/// The slot that is used under a key, if there is one.
fn slot_pointer(slots: &[Slot], key: &[u8]) -> Pointer
    ensures { result ≡ slot_pointer slots.now key.now }
{
    let at = slot_of(slots, key);
    if at < slots.len() {
        Pointer::InSlot(at)
    } else {
        Pointer::Null
    }
}

fn update_pointer(j: usize, found: Pointer) -> Pointer
    ensures { result ≡ update_pointer j found }
{
    if found.is_null() {
        Pointer::Pending(j)
    } else {
        found
    }
}

/// The entry that an operation of a packet at site j writes.
fn written_as(
    act: Act,
    kind: MapKind,
    program: &CellProgram,
    tables: &Tables,
    held: &StageValues,
    j: usize,
) -> Pointer
    requires site { j < length program.now.sites.items }
    requires fits { AllFit tables.now.decls (program_of program.now).sites }
    ensures { result ≡ written_as act kind (program_of program.now) tables.now held.now j }
{
    let site = site_at(program, j);
    match act {
        Act::Update => match kind {
            MapKind::Hash => update_pointer(j, held.pointer(found_cell(program, j))),
            MapKind::Array => {
                let key = key_of(tables, held, site);
                slot_pointer(tables.slots(site.map), key.as_slice())
            }
        },
        Act::Delete => held.pointer(found_cell(program, j)),
        _ => held.access_pointer(site),
    }
}

/// The entry that a packet's operation at a site writes.
pub fn written_pointer(
    program: &CellProgram,
    tables: &Tables,
    held: &StageValues,
    j: usize,
) -> Pointer
    requires site { j < length program.now.sites.items }
    requires fits { AllFit tables.now.decls (program_of program.now).sites }
    ensures { result ≡ written_pointer (program_of program.now) tables.now held.now j }
{
    let site = site_at(program, j);
    let kind = tables.decl(site.map).kind;
    written_as(site.act, kind, program, tables, held, j)
}

fn found_as(act: Act, written: Pointer, found: Pointer) -> Pointer
    ensures { result ≡ found_as act written found }
{
    match act {
        Act::Update => written,
        Act::Delete => Pointer::Null,
        _ => found,
    }
}

/// Where a key is found over the packet's operation at site i.
fn found_over(
    program: &CellProgram,
    tables: &Tables,
    held: &StageValues,
    key: &[u8],
    found: Pointer,
    i: usize,
) -> Pointer
    requires site { i < length program.now.sites.items }
    requires fits { AllFit tables.now.decls (program_of program.now).sites }
    ensures { result ≡ found_over (program_of program.now) tables.now held.now key.now found i }
{
    let site = site_at(program, i);
    if writes(program, tables, held, i) && key_of(tables, held, site).as_slice() == key {
        let written = written_pointer(program, tables, held, i);
        found_as(site.act, written, found)
    } else {
        found
    }
}

/// Where a key is found that was found somewhere before the operations that a read of site j in row r sees.
#[tactic(auto, using(crate::proofs::PrefixLaws::fold_more))]
fn found_after(
    program: &CellProgram,
    rows: &[u32],
    r: u32,
    tables: &Tables,
    held: &StageValues,
    j: usize,
    key: &[u8],
    start: Pointer,
) -> Pointer
    requires site { j < length program.now.sites.items }
    requires fits { AllFit tables.now.decls (program_of program.now).sites }
    ensures { result ≡ fold (found_over (program_of program.now) tables.now held.now key.now) start (pending (program_of program.now) (slice_index rows.now) r j) }
{
    let mut found = start;
    for i in 0..j {
        if is_pending(program, rows, r, j, i) {
            found = found_over(program, tables, held, key, found, i);
        }
    }
    found
}

/// The entry under the key of site j, after the operations that a read in row r sees.
fn key_pointer(
    program: &CellProgram,
    rows: &[u32],
    r: u32,
    tables: &Tables,
    held: &StageValues,
    j: usize,
) -> Pointer
    requires site { j < length program.now.sites.items }
    requires fits { AllFit tables.now.decls (program_of program.now).sites }
    ensures { result ≡ key_pointer (program_of program.now) tables.now held.now (pending (program_of program.now) (slice_index rows.now) r j) j }
{
    let site = site_at(program, j);
    let key = key_of(tables, held, site);
    let found = slot_pointer(tables.slots(site.map), key.as_slice());
    match tables.decl(site.map).kind {
        MapKind::Hash => found_after(program, rows, r, tables, held, j, key.as_slice(), found),
        MapKind::Array => found,
    }
}

/// Whether an operation of a site looks for its key: an update with flags that no one knows does not.
fn looks_as(act: Act, held: &StageValues, site: &Site, decl: &MapDecl) -> bool
    ensures { result ≡ looks (operation_with decl.now act (map_list (stage_value held.now) site.now.key.items) (map_list (stage_value held.now) site.now.operands.items)) }
{
    match act {
        Act::Update => held.operand(site, 0) <= 2,
        _ => true,
    }
}

/// The entry that a read of site j in row r finds.
pub fn found_pointer(
    program: &CellProgram,
    rows: &[u32],
    r: u32,
    tables: &Tables,
    held: &StageValues,
    j: usize,
) -> Pointer
    requires site { j < length program.now.sites.items }
    requires fits { AllFit tables.now.decls (program_of program.now).sites }
    ensures { result ≡ found_pointer (program_of program.now) tables.now held.now (pending (program_of program.now) (slice_index rows.now) r j) j }
{
    let site = site_at(program, j);
    if looks_as(site.act, held, site, tables.decl(site.map)) {
        key_pointer(program, rows, r, tables, held, j)
    } else {
        Pointer::Null
    }
}

/// The value of an entry before the packet's own operations.
fn value_under(tables: &Tables, map: u32, under: Pointer) -> ShortBytes
    requires { map < length tables.now.decls }
    ensures { result ≡ value_under (decl_of tables.now.decls map) (table_at tables.now map) under }
{
    match under {
        Pointer::InSlot(n) => {
            let slots = tables.slots(map);
            if n < slots.len() {
                slots[n].value.copied()
            } else {
                ShortBytes::zeros(0)
            }
        }
        _ => ShortBytes::zeros(tables.decl(map).value as usize),
    }
}

/// The value of an entry after the operations that a read of site j in row r sees.
#[tactic(auto, using(crate::proofs::PrefixLaws::fold_more))]
fn entry_value(
    program: &CellProgram,
    rows: &[u32],
    r: u32,
    tables: &Tables,
    held: &StageValues,
    j: usize,
    under: Pointer,
) -> ShortBytes
    requires site { j < length program.now.sites.items }
    requires fits { AllFit tables.now.decls (program_of program.now).sites }
    ensures { result ≡ entry_value (program_of program.now) tables.now held.now (pending (program_of program.now) (slice_index rows.now) r j) (site_at (program_of program.now).sites j).map under }
{
    let mut value = value_under(tables, site_at(program, j).map, under);
    for i in 0..j {
        if is_pending(program, rows, r, j, i) {
            value_over(program, tables, held, under, &mut value, i);
        }
    }
    value
}

/// The same over the packet's operation at site i, where that wrote through the same pointer.
fn value_over(
    program: &CellProgram,
    tables: &Tables,
    held: &StageValues,
    under: Pointer,
    value: &mut ShortBytes,
    i: usize,
)
    requires site { i < length program.now.sites.items }
    requires fits { AllFit tables.now.decls (program_of program.now).sites }
    ensures { value.new ≡ value_over (program_of program.now) tables.now held.now under value.old i }
{
    if writes(program, tables, held, i)
        && written_pointer(program, tables, held, i).is_same(under)
    {
        operate(tables, held, site_at(program, i), value);
    }
}

/// The number of an error, or 0.
fn number_of(error: Option<i64>) -> i64
    ensures { result ≡ number_of error }
{
    error.unwrap_or(0)
}

/// Why an update of a hash of so much room and so many keys is refused.
fn hash_refusal(cap: usize, used: usize, present: bool, flags: u64) -> Option<i64>
    ensures { result ≡ hash_refusal cap used present flags }
{
    if flags > 2 {
        Some(EINVAL)
    } else if flags == 1 && present {
        Some(EEXIST)
    } else if flags == 2 && !present {
        Some(ENOENT)
    } else if !present && used >= cap {
        Some(E2BIG)
    } else {
        None
    }
}

/// Why an update of an array is refused.
fn array_refusal(cap: u32, index: u32, flags: u64) -> Option<i64>
    ensures { result ≡ array_refusal cap index flags }
{
    if flags > 2 {
        Some(EINVAL)
    } else if index >= cap {
        Some(E2BIG)
    } else if flags == 1 {
        Some(EEXIST)
    } else {
        None
    }
}

/// What an update answers, by how many keys are added and taken away, whether the key is there, and the flags.
#[tactic(auto, unfolding(xdp_maps::specs::Contents::index_of))]
fn update_answer(
    decl: &MapDecl,
    plus: usize,
    minus: usize,
    present: bool,
    key: &[u8],
    flags: u64,
) -> i64
    requires cap { decl.now.cap ≤ 65536 }
    requires minus { minus < 2 ^ 32 }
    requires key { decl.now.kind ≡ MapKind.Array → 4 ≤ length key.now }
    ensures { result ≡ update_answer decl.now.kind decl.now plus minus present key.now flags }
{
    match decl.kind {
        MapKind::Hash => number_of(hash_refusal(decl.cap as usize + minus, plus, present, flags)),
        MapKind::Array => number_of(array_refusal(decl.cap, LittleEndian::read_u32(key), flags)),
    }
}

/// What a delete answers, by whether its key is there.
fn delete_answer(kind: MapKind, present: bool) -> i64
    ensures { result ≡ delete_answer kind present }
{
    match kind {
        MapKind::Hash => { if present { 0 } else { ENOENT } }
        MapKind::Array => EINVAL,
    }
}

/// The number of so many bytes at a place of an entry, 0 where there is none.
fn number_under(
    program: &CellProgram,
    rows: &[u32],
    r: u32,
    tables: &Tables,
    held: &StageValues,
    j: usize,
    at: u32,
    count: usize,
) -> u64
    requires site { j < length program.now.sites.items }
    requires some { 1 ≤ count }
    requires few { count ≤ 8 }
    requires fits { AllFit tables.now.decls (program_of program.now).sites }
    ensures { result ≡ number_under (program_of program.now) tables.now held.now (pending (program_of program.now) (slice_index rows.now) r j) j at count }
{
    let under = held.access_pointer(site_at(program, j));
    if under.is_null() {
        return 0;
    }
    let value = entry_value(program, rows, r, tables, held, j, under);
    number_in(value.as_slice(), at as usize, count)
}

/// What an operation of site j answers to a read in row r.
fn answer_as(
    act: Act,
    program: &CellProgram,
    rows: &[u32],
    r: u32,
    tables: &Tables,
    held: &StageValues,
    j: usize,
) -> u64
    requires site { j < length program.now.sites.items }
    requires few { length program.now.sites.items < 2 ^ 32 }
    requires fits { AllFit tables.now.decls (program_of program.now).sites }
    ensures { let s = site_at (program_of program.now).sites j in
        result ≡ answer_as act (operation_with (decl_of tables.now.decls s.map) act (map_list (stage_value held.now) s.key) (map_list (stage_value held.now) s.operands)) (program_of program.now) tables.now held.now
        (pending (program_of program.now) (slice_index rows.now) r j) j }
{
    let site = site_at(program, j);
    let decl = tables.decl(site.map);
    match act {
        Act::Load(at, size) => number_under(
            program,
            rows,
            r,
            tables,
            held,
            j,
            at,
            memory::bytes_in(size),
        ),
        Act::Atomic(at, atomic) => {
            let count = if atomic.wide { 8 } else { 4 };
            number_under(program, rows, r, tables, held, j, at, count)
        }
        Act::Update => {
            let plus = used_count(tables.slots(site.map))
                + keys_added(program, rows, r, tables, held, j);
            let minus = keys_taken(program, rows, r, tables, held, j);
            let present = !key_pointer(program, rows, r, tables, held, j).is_null();
            let key = key_of(tables, held, site);
            update_answer(
                decl,
                plus,
                minus,
                present,
                key.as_slice(),
                held.operand(site, 0),
            )
            .cast_unsigned()
        }
        Act::Delete => {
            let present = !key_pointer(program, rows, r, tables, held, j).is_null();
            delete_answer(decl.kind, present).cast_unsigned()
        }
        Act::Lookup | Act::Store(..) => {
            let absent = key_pointer(program, rows, r, tables, held, j).is_null();
            if absent { 0 } else { 1 }
        }
    }
}

/// What a read of site j in row r answers.
pub fn answer_over(
    program: &CellProgram,
    rows: &[u32],
    r: u32,
    tables: &Tables,
    held: &StageValues,
    j: usize,
) -> u64
    requires site { j < length program.now.sites.items }
    requires few { length program.now.sites.items < 2 ^ 32 }
    requires fits { AllFit tables.now.decls (program_of program.now).sites }
    ensures { result ≡ answer_over (program_of program.now) tables.now held.now (pending (program_of program.now) (slice_index rows.now) r j) j }
{
    let act = site_at(program, j).act;
    answer_as(act, program, rows, r, tables, held, j)
}
