//! The load: the host writes what maps hold.

ghost use Rattle.std.specs.Prelude.{◌≡◌, ◌≢◌, ◌+◌, ◌<◌, ◌≤◌, length, take, IfErr, IfSome};
ghost use Rattle.std.specs.Option.{option_copied};
ghost use Rattle.beat_core.specs.Words.{word_of};
ghost use Rattle.beat_core.specs.Beats.{beat_count};
ghost use Rattle.xdp_maps.specs.Contents.{IsWithinLimits};
ghost use Rattle.xdp_maps.specs.State.{decl_at, contents_at};
ghost use Rattle.realization.specs.HostHistory.Rows.{words_of, slot_of, rows_of};
ghost use Rattle.realization.specs.HostHistory.Host.{row_writes, map_writes, load};
ghost use Rattle.port_drive.specs.Hosting.{Clocks, ClocksOrNone};
ghost use Rattle.port_drive.specs.Reading.{row_with};
ghost use Rattle.port_drive.specs.declared.report.DriveError.TheVariants.{NoMemory};

use crate::host_clock::write_word;
use crate::report::DriveError;
use byteorder::{ByteOrder, LittleEndian};
use clock_sim::{Clocked, XValue};
use xdp_maps::decl::MapKind;
use xdp_maps::laws::pair_laws;
use xdp_maps::state::Maps;

// The first eight bytes as a word, the first the lowest, or all there are, filled up with zeros.
fn first_word(rest: &[u8]) -> u64
    requires { 0 < length rest.now }
    ensures { result ≡ word_of (take 8 rest.now) }
{
    LittleEndian::read_uint(rest, rest.len().min(8))
}

// Writes bytes from a word on.
fn write_bytes<C: Clocked>(
    sim: &mut C,
    map: u8,
    index: u16,
    first: u8,
    bytes: &[u8],
) -> Result<(), XValue>
    requires map { map < 16 }
    requires room { first + beat_count (length bytes.now) ≤ 16 }
    ensures netlist { C.netlist sim.new ≡ C.netlist sim.old }
    ensures clocks { Clocks (C.netlist sim.old) (C.stored sim.old) (row_writes map index first (words_of bytes.now)) result (C.stored sim.new) }
{
    let mut rest = bytes;
    let mut word = first;
    while !rest.is_empty() {
        match write_word(sim, map, index, word, first_word(rest)) {
            Ok(()) => {}
            Err(stopped) => return Err(stopped),
        }
        rest = &rest[rest.len().min(8)..];
        word += 1;
    }
    Ok(())
}

// Writes an entry into a slot.
fn write_slot<C: Clocked>(
    sim: &mut C,
    map: u8,
    index: u16,
    key: &[u8],
    value: &[u8],
) -> Result<(), XValue>
    requires map { map < 16 }
    requires room { 1 + beat_count (length key.now) + beat_count (length value.now) ≤ 16 }
    ensures netlist { C.netlist sim.new ≡ C.netlist sim.old }
    ensures clocks { Clocks (C.netlist sim.old) (C.stored sim.old) (row_writes map index 0 (slot_of (key.now, value.now))) result (C.stored sim.new) }
{
    match write_word(sim, map, index, 0, 1) {
        Ok(()) => {}
        Err(stopped) => return Err(stopped),
    }
    match write_bytes(sim, map, index, 1, key) {
        Ok(()) => {}
        Err(stopped) => return Err(stopped),
    }
    let behind = 1 + key.len().div_ceil(8);
    write_bytes(sim, map, index, behind as u8, value)
}

// Writes what there is under an index: of a hash a used slot or an unused one, of an array a value.
fn write_row<C: Clocked>(
    sim: &mut C,
    map: u8,
    index: u16,
    kind: MapKind,
    key: &[u8],
    value: Option<&[u8]>,
) -> Result<(), XValue>
    requires map { map < 16 }
    requires key { length key.now ≤ 40 }
    requires value { IfSome (option_copied value) (λ v. length v ≤ 64) }
    ensures netlist { C.netlist sim.new ≡ C.netlist sim.old }
    ensures clocks { Clocks (C.netlist sim.old) (C.stored sim.old) (row_writes map index 0 (row_with kind key.now (option_copied value.entry))) result (C.stored sim.new) }
{
    match (kind, value) {
        (MapKind::Hash, Some(value)) => write_slot(sim, map, index, key, value),
        (MapKind::Hash, None) => write_word(sim, map, index, 0, 0),
        (MapKind::Array, Some(value)) => write_bytes(sim, map, index, 0, value),
        (MapKind::Array, None) => Ok(()),
    }
}

// Writes what one map holds.
fn load_map<C: Clocked>(sim: &mut C, maps: &Maps, map: u32) -> Result<(), XValue>
    requires map { map < length maps.now.decls }
    requires few { map < 16 }
    ensures netlist { C.netlist sim.new ≡ C.netlist sim.old }
    ensures clocks { Clocks (C.netlist sim.old) (C.stored sim.old) (map_writes map 0 (rows_of (decl_at maps.now map) (contents_at maps.now map))) result (C.stored sim.new) }
{
    pair_laws();
    let decl = &maps.decls()[map as usize];
    let mut buffer = [0; 40];
    let key = &mut buffer[..decl.key as usize];
    for index in 0..decl.cap {
        let value = maps.entry(map, index, key);
        match write_row(sim, map as u8, index as u16, decl.kind, key, value) {
            Ok(()) => {}
            Err(stopped) => return Err(stopped),
        }
    }
    Ok(())
}

/// Writes what maps hold into a design, a word a clock, before the first beat: the maps in their order, indexes and words
/// ascending. An array's entries stand under their indexes; a hash's stand in the first slots in the order of their keys, and
/// the other slots are written as unused. Of a clock whose divisor is zero it gives the net, and no further clock comes. It takes
/// no memory. A design has four bits for the number of a map.
pub fn load<C: Clocked>(sim: &mut C, maps: &Maps) -> Result<(), DriveError>
    requires few { length maps.now.decls ≤ 16 }
    ensures netlist { C.netlist sim.new ≡ C.netlist sim.old }
    ensures clocks { ClocksOrNone (C.netlist sim.old) (C.stored sim.old) (load maps.now) result (C.stored sim.new) }
    ensures memory { IfErr result (λ e. e ≢ NoMemory) }
{
    for map in 0..maps.decls().len() {
        match load_map(sim, maps, map as u32) {
            Ok(()) => {}
            Err(x) => return Err(DriveError::X(x)),
        }
    }
    Ok(())
}
