//! The operations of sites, by what a packet holds.

ghost use Rattle.std.specs.Prelude.{◌≡◌, ◌<◌, ◌≤◌, ◌*◌, ◌+◌, ◌^◌, length, drop, slice_range, map as map_list};
ghost use Rattle.std.proofs.Common.{get_or};
ghost use Rattle.byteorder.specs.Endian.{little_number};
ghost use Rattle.xdp_maps.specs.Calls.{with_change, change_bytes, change_result, number_at, part_of, patched};
ghost use Rattle.cell_core.specs.Sites.{bytes_of, change_of, operation_with};
ghost use Rattle.cell_core.specs.Formed.{FitsMap, HasWords, IsInside};
ghost use Rattle.cell_core.specs.View.{program_of, site_of};
ghost use Rattle.hazard_core.specs.Tables.{decl_of};
ghost use Rattle.hazard_core.specs.StageValues.{stage_value, asked, asked_key, writes_as};
ghost use Rattle.hazard_core.specs.Overlay.{value_as};

use crate::stage_values::StageValues;
use crate::tables::Tables;
use byteorder::{ByteOrder, LittleEndian};
use cell_core::site::{Act, Atomic, Site};
use cell_core::xdp_state::memory;
use xdp_maps::change::Change;
use xdp_maps::decl::{MapDecl, MapKind};
use xdp_maps::short::ShortBytes;

/// The first `count` bytes of words of eight.
#[tactic(auto, using(crate::proofs::Spelling::spelled_more, crate::proofs::Spelling::spelled_all))]
fn spell(held: &StageValues, words: &[u32], count: usize) -> ShortBytes
    requires short { count ≤ 64 }
    requires enough { count ≤ 8 * length words.now }
    ensures { result ≡ bytes_of count (map_list (stage_value held.now) words.now) }
{
    let mut bytes = [0; 64];
    let needed = (count + 7) / 8;
    for i in 0..needed {
        let word = memory::bytes_of(held.value(words[i] as usize));
        bytes[8 * i..8 * i + 8].copy_from_slice(&word);
    }
    ShortBytes::of(&bytes[..count])
}

/// The key of a site's operation.
#[tactic(auto, using(crate::proofs::ActsLaws::key_is, cell_core::proofs::SpelledLaws::words_length))]
pub fn key_of(tables: &Tables, held: &StageValues, site: &Site) -> ShortBytes
    requires { FitsMap tables.now.decls (site_of site.now) }
    ensures key { result ≡ asked_key tables.now.decls held.now (site_of site.now) }
    ensures count { length result ≡ (decl_of tables.now.decls site.now.map).key }
{
    let decl = tables.decl(site.map);
    spell(held, &site.key, decl.key as usize)
}

/// The words of the operands after the first.
fn rest(operands: &[u32]) -> &[u32]
    ensures { result.now ≡ drop 1 operands.now }
{
    match operands {
        [] => operands,
        [_, rest @ ..] => rest,
    }
}

/// The value of an update.
fn value_of(held: &StageValues, site: &Site, decl: &MapDecl) -> ShortBytes
    requires short { decl.now.value ≤ 64 }
    requires words { decl.now.value + 8 ≤ 8 * length site.now.operands.items }
    ensures { result ≡ bytes_of decl.now.value (drop 1 (map_list (stage_value held.now) site.now.operands.items)) }
{
    spell(held, rest(&site.operands), decl.value as usize)
}

/// The atomic change of a site.
pub fn change_of(held: &StageValues, site: &Site, atomic: Atomic) -> Change
    ensures { result ≡ change_of atomic (get_or (map_list (stage_value held.now) (site_of site.now).operands) 0 0) (get_or (map_list (stage_value held.now) (site_of site.now).operands) 1 0) }
{
    Change {
        kind: atomic.kind,
        wide: atomic.wide,
        source: held.operand(site, 0),
        compare: held.operand(site, 1),
    }
}

/// The byte at a place, 0 past the last.
fn byte_at(bytes: &[u8], at: usize) -> u8
    ensures { result ≡ get_or bytes.now at 0 }
{
    if at < bytes.len() { bytes[at] } else { 0 }
}

/// So many bytes from a place on; what is past the end counts as 0.
fn padded(bytes: &[u8], at: usize, count: usize) -> [u8; 8]
    requires few { count ≤ 8 }
    requires at { at < 2 ^ 62 }
    ensures { little_number count result ≡ little_number count (slice_range bytes.now at (at + count)) }
{
    let mut all = [0; 8];
    for j in 0..count {
        all[j] = byte_at(bytes, at + j);
    }
    all
}

/// The number of so many bytes from a place on, the low byte first; what is past the end counts as 0.
pub fn number_in(bytes: &[u8], at: usize, count: usize) -> u64
    requires some { 1 ≤ count }
    requires few { count ≤ 8 }
    requires at { at < 2 ^ 62 }
    ensures { result ≡ little_number count (slice_range bytes.now at (at + count)) }
{
    LittleEndian::read_uint(&padded(bytes, at, count), count)
}

/// The number of a change's width at a place of a value.
fn number_before(value: &[u8], at: usize, change: Change) -> u64
    requires { at < 2 ^ 62 }
    ensures number { result ≡ number_at change.wide at value.now }
    ensures fits { part_of change.wide result ≡ result }
{
    if change.wide {
        LittleEndian::read_u64(&padded(value, at, 8))
    } else {
        u64::from(LittleEndian::read_u32(&padded(value, at, 4)))
    }
}

/// A value that ends before some bytes that are written from a place on.
#[tactic(auto, using(crate::proofs::Padding::patch_long))]
fn lengthened(value: &[u8], at: usize, bytes: &[u8]) -> ShortBytes
    requires room { at + length bytes.now ≤ 64 }
    requires past { length value.now ≤ at + length bytes.now }
    ensures { result ≡ patched value.now at bytes.now }
{
    let head = at.min(value.len());
    let mut longer = ShortBytes::zeros(head + bytes.len());
    longer.write(0, &value[..head]);
    longer.write(head, bytes);
    longer
}

/// Writes bytes over those from a place on; a value that ends before gets longer.
fn patch(value: &mut ShortBytes, at: usize, bytes: &[u8])
    requires { at + length bytes.now ≤ 64 }
    ensures { value.new ≡ patched value.old at bytes.now }
{
    if at + bytes.len() <= value.as_slice().len() {
        value.write(at, bytes);
    } else {
        *value = lengthened(value.as_slice(), at, bytes);
    }
}

/// An atomic change of a number at a place of a value.
fn change_value(value: &mut ShortBytes, at: usize, change: Change)
    requires { at + change_bytes change.wide ≤ 64 }
    ensures { value.new ≡ with_change change at value.old }
{
    let old = number_before(value.as_slice(), at, change);
    let bytes = memory::bytes_of(change.result_on(old));
    patch(value, at, &bytes[..change.bytes()]);
}

/// Does to a value what an operation of a site does to the one under its key.
fn operate_as(act: Act, held: &StageValues, site: &Site, decl: &MapDecl, value: &mut ShortBytes)
    requires short { decl.now.value ≤ 64 }
    requires words { HasWords decl.now.value act (length site.now.operands.items) }
    requires inside { IsInside decl.now.value act }
    ensures { value.new ≡ value_as (operation_with decl.now act (map_list (stage_value held.now) site.now.key.items) (map_list (stage_value held.now) site.now.operands.items)) value.old }
{
    match act {
        Act::Update => *value = value_of(held, site, decl),
        Act::Store(at, size) => {
            let bytes = memory::bytes_of(held.operand(site, 0));
            patch(value, at as usize, &bytes[..memory::bytes_in(size)]);
        }
        Act::Atomic(at, atomic) => {
            change_value(value, at as usize, change_of(held, site, atomic));
        }
        _ => {}
    }
}

/// The same of the site's own operation.
#[tactic(auto, using(crate::proofs::Lengths::value_length))]
pub fn operate(tables: &Tables, held: &StageValues, site: &Site, value: &mut ShortBytes)
    requires { FitsMap tables.now.decls (site_of site.now) }
    ensures value { value.new ≡ value_as (asked tables.now.decls held.now (site_of site.now)) value.old }
    ensures count { length value.old ≡ (decl_of tables.now.decls site.now.map).value → length value.new ≡ length value.old }
{
    operate_as(site.act, held, site, tables.decl(site.map), value);
}

/// Whether an operation writes that answered this number.
pub fn writes_as(act: Act, kind: MapKind, answer: u64) -> bool
    ensures { result ≡ writes_as act kind answer }
{
    match act {
        Act::Update => answer == 0,
        Act::Delete => kind == MapKind::Hash && answer == 0,
        Act::Store(..) | Act::Atomic(..) => true,
        Act::Lookup | Act::Load(..) => false,
    }
}
