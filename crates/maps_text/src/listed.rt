//! The maps that a text lists, line by line.

ghost use Rattle.std.specs.Prelude.{◌≡◌, ◌<◌, ◌*◌, ◌^◌, true, false, length, slice_index_or, slice_set, IfSome, OnOk};
ghost use Rattle.xdp_maps.specs.Contents.{IsWithinLimits, index_of};
ghost use Rattle.xdp_maps.specs.State.{decl_at, contents_at};
ghost use Rattle.xdp_maps.specs.declared.decl.MapKind.TheVariants.{Hash, Array};
ghost use Rattle.maps_text.specs.Lines.{Entry};
ghost use Rattle.maps_text.specs.Reading.{Listed, has_key_as, with_pair, placed, line_read};
ghost use Rattle.maps_text.specs.Steps.{IsWritten, Marks, Takes, FitsPair, hash_result, array_result, place_of};

use crate::decls::{decl_of, map_named};
use crate::digits::bytes_of;
use crate::error::MapsError;
use crate::fields::{Fields, entry_fields};
use byteorder::{ByteOrder, LittleEndian};
use xdp_maps::decl::{MapDecl, MapKind};
use xdp_maps::errno::{E2BIG, EEXIST};
use xdp_maps::laws::index_laws;
use xdp_maps::short::ShortBytes;
use xdp_maps::state::Maps;

/// How many indexes an array may have.
pub(crate) const INDEXES: usize = 65536;

// The flags of an update (bpf(2)): whether the key may be there.
const BPF_ANY: u64 = 0;

const BPF_NOEXIST: u64 = 1;

/// Puts what line `n` says into the maps. Each array has a mark for each of its indexes that is listed.
pub(crate) fn take(
    maps: &mut Maps,
    marks: &mut [bool],
    n: u64,
    line: &[u8],
) -> Result<(), MapsError>
    requires few { length maps.old.decls < 2 ^ 32 }
    requires enough { length marks.old ≡ length maps.old.decls * 65536 }
    ensures { (listed : Listed) → listed.maps ≡ maps.old → Marks marks.old listed → Takes result maps.new marks.new (line_read n listed line.now) }
{
    let Some(fields) = entry_fields(line) else {
        return Err(MapsError::Line { n });
    };
    let Some(map) = map_named(maps.decls(), fields.name) else {
        return Err(MapsError::Unknown { n });
    };
    let Some((key, value)) = pair_of(decl_of(maps, map), &fields) else {
        return Err(MapsError::Length { n });
    };
    put(maps, marks, n, map, key.as_slice(), value.as_slice())
}

/// The key and the value of a line, if its map can have them.
fn pair_of(decl: &MapDecl, fields: &Fields) -> Option<(ShortBytes, ShortBytes)>
    requires { IsWithinLimits decl.now }
    ensures entry { (e : Entry) → IsWritten fields.now e → FitsPair decl.now e result }
    ensures key { IfSome result (λ p. length p.0 ≡ decl.now.key) }
    ensures value { IfSome result (λ p. length p.1 ≡ decl.now.value) }
    ensures can { IfSome result (λ p. has_key_as decl.now.kind decl.now.cap p.0 ≡ true) }
{
    let key = bytes_of(fields.key, decl.key as usize)?;
    let value = bytes_of(fields.value, decl.value as usize)?;
    if has_key(decl, key.as_slice()) {
        Some((key, value))
    } else {
        None
    }
}

/// Whether a map can have a key of its length.
fn has_key(decl: &MapDecl, key: &[u8]) -> bool
    requires limits { IsWithinLimits decl.now }
    requires key { length key.now ≡ decl.now.key }
    ensures { result ≡ has_key_as decl.now.kind decl.now.cap key.now }
{
    match decl.kind {
        MapKind::Hash => true,
        MapKind::Array => LittleEndian::read_u32(key) < decl.cap,
    }
}

/// Puts an entry that a map can have into it, once.
fn put(
    maps: &mut Maps,
    marks: &mut [bool],
    n: u64,
    map: u32,
    key: &[u8],
    value: &[u8],
) -> Result<(), MapsError>
    requires few { length maps.old.decls < 2 ^ 32 }
    requires map { map < length maps.old.decls }
    requires key { length key.now ≡ (decl_at maps.old map).key }
    requires value { length value.now ≡ (decl_at maps.old map).value }
    requires can { has_key_as (decl_at maps.old map).kind (decl_at maps.old map).cap key.now ≡ true }
    requires enough { length marks.old ≡ length maps.old.decls * 65536 }
    ensures { (listed : Listed) → listed.maps ≡ maps.old → Marks marks.old listed → Takes result maps.new marks.new (placed n listed map key.now value.now) }
{
    match decl_of(maps, map).kind {
        MapKind::Hash => put_into_hash(maps, n, map, key, value),
        MapKind::Array => {
            index_laws();
            put_into_array(maps, marks, n, map, key, value)
        }
    }
}

/// Puts an entry into a hash that has room for it, once.
fn put_into_hash(
    maps: &mut Maps,
    n: u64,
    map: u32,
    key: &[u8],
    value: &[u8],
) -> Result<(), MapsError>
    requires map { map < length maps.old.decls }
    requires hash { (decl_at maps.old map).kind ≡ Hash }
    requires key { length key.now ≡ (decl_at maps.old map).key }
    requires value { length value.now ≡ (decl_at maps.old map).value }
    ensures result { result ≡ hash_result n (decl_at maps.old map).cap (contents_at maps.old map) key.now }
    ensures ok { OnOk result (maps.new ≡ with_pair maps.old map key.now value.now) }
{
    match maps.update(map, key, value, BPF_NOEXIST) {
        EEXIST => Err(MapsError::Twice { n }),
        E2BIG => Err(MapsError::Full { n }),
        _ => Ok(()),
    }
}

/// Puts an entry into an array, once.
fn put_into_array(
    maps: &mut Maps,
    marks: &mut [bool],
    n: u64,
    map: u32,
    key: &[u8],
    value: &[u8],
) -> Result<(), MapsError>
    requires map { map < length maps.old.decls }
    requires array { (decl_at maps.old map).kind ≡ Array }
    requires key { length key.now ≡ (decl_at maps.old map).key }
    requires value { length value.now ≡ (decl_at maps.old map).value }
    requires four { length key.now ≡ 4 }
    requires inside { index_of key.now < (decl_at maps.old map).cap }
    requires small { index_of key.now < 65536 }
    requires enough { length marks.old ≡ length maps.old.decls * 65536 }
    ensures result { result ≡ array_result n (slice_index_or marks.old (place_of map key.now) false) }
    ensures maps { OnOk result (maps.new ≡ with_pair maps.old map key.now value.now) }
    ensures marks { OnOk result (marks.new ≡ slice_set marks.old (place_of map key.now) true) }
{
    let place = place_of(map, key);
    if marks[place] {
        return Err(MapsError::Twice { n });
    }
    marks[place] = true;
    maps.update(map, key, value, BPF_ANY);
    Ok(())
}

/// The place of the mark of an array's index.
fn place_of(map: u32, key: &[u8]) -> usize
    requires { length key.now ≡ 4 }
    ensures { result ≡ place_of map key.now }
{
    map as usize * INDEXES + LittleEndian::read_u32(key) as usize
}
