//! The dump: the host reads what maps hold.

ghost use Rattle.std.specs.Prelude.{◌≡◌, ◌+◌, ◌*◌, ◌<◌, ◌≤◌, ◌++◌, ◌∷◌, [], List, ℕ, length, take, drop, map as map_list, All, OnOk, IfOk};
ghost use Rattle.std.specs.List.{range_with_len};
ghost use Rattle.std.specs.FinMap as finite;
ghost use Rattle.beat_core.specs.Words.{low_bytes};
ghost use Rattle.net_core.specs.Trace.{trace};
ghost use Rattle.xdp_maps.specs.Contents.{IsWithinLimits, index_key, opened};
ghost use Rattle.xdp_maps.specs.State.{MapState, decl_at, contents_at, with_contents};
ghost use Rattle.xdp_maps.specs.declared.decl.MapKind.TheVariants.{Hash, Array};
ghost use Rattle.realization.specs.HostHistory.Rows.{row_length, entry_of, bytes_of, contents_of};
ghost use Rattle.realization.specs.HostHistory.Host.{asked, map_reads, dump, cut_in_rows, shown_words, ShowsMaps};
ghost use Rattle.port_drive.specs.Hosting.{Clocks, ClocksOrNone, shown_maps, AreGiven};
ghost use Rattle.port_drive.specs.Reading.{read_of, with_entry};

use crate::answers::bytes_of_word;
use crate::host_clock::read_word;
use crate::report::DriveError;
use byteorder::{ByteOrder, LittleEndian};
use clock_sim::{Clocked, XValue};
use std::alloc::Global;
use xdp_maps::decl::{MapDecl, MapKind};
use xdp_maps::state::Maps;

// The most words under an index: one that says whether a slot is used, those of a key and those of a value.
const MOST_WORDS: usize = 14;

const BPF_ANY: u64 = 0;

const BPF_NOEXIST: u64 = 1;

// How many words there are under an index of a map.
fn row_length(decl: &MapDecl) -> usize
    requires { IsWithinLimits decl.now }
    ensures words { result ≡ row_length decl.now }
    ensures few { result ≤ MOST_WORDS }
{
    let value = (decl.value as usize).div_ceil(8);
    match decl.kind {
        MapKind::Hash => 1 + (decl.key as usize).div_ceil(8) + value,
        MapKind::Array => value,
    }
}

// Reads the words under an index.
fn read_row<C: Clocked>(sim: &mut C, map: u8, index: u16, row: &mut [u64]) -> Result<(), XValue>
    requires map { map < 16 }
    requires words { length row.old ≤ 16 }
    ensures netlist { C.netlist sim.new ≡ C.netlist sim.old }
    ensures clocks { Clocks (C.netlist sim.old) (C.stored sim.old) (map_list (asked map index) (range_with_len 0 (length row.old))) result (C.stored sim.new) }
    ensures shown { OnOk result (row.new ≡ shown_words (trace (C.netlist sim.old) (C.stored sim.old) (map_list (asked map index) (range_with_len 0 (length row.old))))) }
{
    for word in 0..row.len() {
        match read_word(sim, map, index, word as u8) {
            Ok(shown) => row[word] = shown,
            Err(stopped) => return Err(stopped),
        }
    }
    Ok(())
}

// Writes the bytes of a word over those from a place on, the lowest first.
fn put_word(bytes: &mut [u8], at: usize, word: u64)
    requires { at + 8 ≤ length bytes.old }
    ensures { bytes.new ≡ take at bytes.old ++ low_bytes 8 word ++ drop (at + 8) bytes.old }
{
    bytes[at..at + 8].copy_from_slice(&bytes_of_word(word));
}

// The bytes of words, the lowest of each first, and zeros after them.
fn bytes_of_words(words: &[u64]) -> [u8; 64]
    requires { length words.now ≤ 8 }
    ensures { (n : ℕ) → n ≤ 8 * length words.now → take n result ≡ bytes_of n words.now }
{
    let mut bytes = [0; 64];
    for i in 0..words.len() {
        put_word(&mut bytes, 8 * i, words[i]);
    }
    bytes
}

// The key of an index of an array.
fn key_of(index: u32) -> [u8; 4]
    ensures { result ≡ index_key index }
{
    let mut key = [0; 4];
    LittleEndian::write_u32(&mut key, index);
    key
}

// Puts the entry of a hash's slot into it, where the slot is used. Of equal keys the first counts.
fn take_slot(maps: &mut Maps, map: u32, row: &[u64])
    requires map { map < length maps.old.decls }
    requires hash { (decl_at maps.old map).kind ≡ Hash }
    requires row { length row.now ≡ row_length (decl_at maps.old map) }
    requires room { finite.len (contents_at maps.old map) < (decl_at maps.old map).cap }
    ensures { maps.new ≡ with_contents maps.old map (with_entry (contents_at maps.old map) (entry_of (decl_at maps.old map) row.now)) }
{
    let decl = &maps.decls()[map as usize];
    let (key_len, value_len) = (decl.key as usize, decl.value as usize);
    if row[0] == 0 {
        return;
    }
    let behind = 1 + key_len.div_ceil(8);
    let key = bytes_of_words(&row[1..behind]);
    let value = bytes_of_words(&row[behind..]);
    maps.update(map, &key[..key_len], &value[..value_len], BPF_NOEXIST);
}

// Puts a value of an array under its index.
fn take_value(maps: &mut Maps, map: u32, index: u32, row: &[u64])
    requires map { map < length maps.old.decls }
    requires array { (decl_at maps.old map).kind ≡ Array }
    requires row { length row.now ≡ row_length (decl_at maps.old map) }
    requires index { index < (decl_at maps.old map).cap }
    ensures { maps.new ≡ with_contents maps.old map (finite.insert (contents_at maps.old map) (index_key index) (bytes_of (decl_at maps.old map).value row.now)) }
{
    let value_len = maps.decls()[map as usize].value as usize;
    let key = key_of(index);
    let value = bytes_of_words(row);
    maps.update(map, &key, &value[..value_len], BPF_ANY);
}

// Takes what the words under the next index say.
fn take_row(maps: &mut Maps, map: u32, index: u32, row: &[u64])
    requires map { map < length maps.old.decls }
    requires row { length row.now ≡ row_length (decl_at maps.old map) }
    requires index { index < (decl_at maps.old map).cap }
    requires before { (rows : List (List ℕ)) × (length rows ≡ index) × (contents_at maps.old map ≡ read_of (decl_at maps.old map) rows) }
    ensures { (rows : List (List ℕ)) → length rows ≡ index → contents_at maps.old map ≡ read_of (decl_at maps.old map) rows → maps.new ≡ with_contents maps.old map (read_of (decl_at maps.old map) (rows ++ row.now ∷ [])) }
{
    match maps.decls()[map as usize].kind {
        MapKind::Hash => take_slot(maps, map, row),
        MapKind::Array => take_value(maps, map, index, row),
    }
}

// Reads what one map holds, of which nothing was taken yet.
fn dump_map<C: Clocked>(sim: &mut C, maps: &mut Maps, map: u32) -> Result<(), XValue>
    requires map { map < length maps.old.decls }
    requires few { map < 16 }
    requires opened { contents_at maps.old map ≡ opened (decl_at maps.old map) }
    ensures netlist { C.netlist sim.new ≡ C.netlist sim.old }
    ensures clocks { Clocks (C.netlist sim.old) (C.stored sim.old) (map_reads map (decl_at maps.old map)) result (C.stored sim.new) }
    ensures maps { OnOk result (maps.new ≡ with_contents maps.old map (contents_of (decl_at maps.old map) (cut_in_rows (decl_at maps.old map).cap (row_length (decl_at maps.old map)) (shown_words (trace (C.netlist sim.old) (C.stored sim.old) (map_reads map (decl_at maps.old map))))))) }
{
    let decl = &maps.decls()[map as usize];
    let (cap, words) = (decl.cap, row_length(decl));
    let mut buffer = [0; MOST_WORDS];
    let row = &mut buffer[..words];
    for index in 0..cap {
        match read_row(sim, map as u8, index as u16, row) {
            Ok(()) => {}
            Err(stopped) => return Err(stopped),
        }
        take_row(maps, map, index, row);
    }
    Ok(())
}

/// The maps of these declarations that a design shows the host, a word a clock, after the last answer: the maps in their order,
/// indexes and words ascending. Of a hash the used slots count, and of slots with one key the first; a last word's filling does
/// not. Of a clock whose divisor is zero it gives the net, and no further clock comes. All memory is taken before the first clock.
/// A design has four bits for the number of a map.
pub fn dump<C: Clocked>(alloc: Global, sim: &mut C, decls: &[MapDecl]) -> Result<Maps, DriveError>
    requires limits { All IsWithinLimits decls.now }
    requires few { length decls.now ≤ 16 }
    ensures netlist { C.netlist sim.new ≡ C.netlist sim.old }
    ensures clocks { ClocksOrNone (C.netlist sim.old) (C.stored sim.old) (dump decls.now) result (C.stored sim.new) }
    ensures maps { IfOk result (λ maps. maps ≡ shown_maps decls.now (trace (C.netlist sim.old) (C.stored sim.old) (dump decls.now))) }
    // Where a design shows maps, these are the ones.
    ensures shown { (maps : MapState) → maps.decls ≡ decls.now → ShowsMaps (C.netlist sim.old) (C.stored sim.old) maps → AreGiven maps result }
{
    let Ok(mut maps) = Maps::new(alloc, decls) else {
        return Err(DriveError::NoMemory);
    };
    for map in 0..decls.len() {
        match dump_map(sim, &mut maps, map as u32) {
            Ok(()) => {}
            Err(x) => return Err(DriveError::X(x)),
        }
    }
    Ok(maps)
}
