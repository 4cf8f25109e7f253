//! The declaration of a map by the numbers that are said of it.

ghost use Rattle.std.specs.Prelude.{◌≡◌, IfOk};
ghost use Rattle.xdp_object.specs.MapRecords.Declarations.{capacity, declared, entries_fit, flags_fit, key_fits, map_kind, value_fits};
ghost use Rattle.xdp_maps.specs.Contents.{IsWithinLimits};

use crate::map_records::fault::MapRule;
use btf_view::MapFields;
use xdp_maps::decl::{MapDecl, MapKind};
use xdp_maps::short::ShortBytes;

/// The kind of a map, by its type.
fn map_kind(kind: u32) -> Option<MapKind>
    ensures { result ≡ map_kind kind }
{
    match kind {
        1 | 5 => Some(MapKind::Hash),
        2 | 6 => Some(MapKind::Array),
        _ => None,
    }
}

fn key_fits(kind: MapKind, size: u32) -> bool
    ensures { result ≡ key_fits kind size }
{
    match kind {
        MapKind::Hash => 0 < size && size <= 40,
        MapKind::Array => size == 4,
    }
}

fn value_fits(size: u32) -> bool
    ensures { result ≡ value_fits size }
{
    0 < size && size <= 64
}

fn entries_fit(kind: MapKind, entries: u32) -> bool
    ensures { result ≡ entries_fit kind entries }
{
    match kind {
        MapKind::Hash => 0 < entries,
        MapKind::Array => 0 < entries && entries <= 65536,
    }
}

fn flags_fit(kind: MapKind, flags: u32) -> bool
    ensures { result ≡ flags_fit kind flags }
{
    match kind {
        MapKind::Hash => flags <= 1,
        MapKind::Array => flags == 0,
    }
}

fn capacity(kind: MapKind, entries: u32, hash_cap: u32) -> u32
    ensures { result ≡ capacity hash_cap kind entries }
{
    match kind {
        MapKind::Hash => entries.min(hash_cap.min(1024).max(1)),
        MapKind::Array => entries,
    }
}

/// The declaration of a map of which an object says these numbers. It fails with the first rule that they break, of
/// `Absent`, `Kind`, `Key`, `Value`, `Entries` and `Flags`. A hash holds at most `hash_cap` keys, whatever the object says;
/// 0 counts as 1, and what is above 1,024 as 1,024.
pub fn declare(name: ShortBytes, fields: &MapFields, hash_cap: u32) -> Result<MapDecl, MapRule>
    ensures value { result ≡ declared hash_cap name fields.now }
    ensures limits { IfOk result IsWithinLimits }
    ensures name { IfOk result (λ decl. decl.name ≡ name) }
{
    let Some(number) = fields.kind else {
        return Err(MapRule::Absent);
    };
    let Some(kind) = map_kind(number) else {
        return Err(MapRule::Kind);
    };
    if !key_fits(kind, fields.key) {
        return Err(MapRule::Key);
    }
    if !value_fits(fields.value) {
        return Err(MapRule::Value);
    }
    if !entries_fit(kind, fields.cap) {
        return Err(MapRule::Entries);
    }
    if !flags_fit(kind, fields.flags) {
        return Err(MapRule::Flags);
    }
    Ok(MapDecl {
        name,
        kind,
        key: fields.key,
        value: fields.value,
        cap: capacity(kind, fields.cap, hash_cap),
    })
}
