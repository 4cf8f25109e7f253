//! What the host reads and writes.

ghost use Rattle.std.specs.Prelude.{◌≡◌, true, ◌<◌, ◌≤◌, ◌^◌, length};
ghost use Rattle.hazard_core.specs.Tables.{table_at, slot_at};
ghost use Rattle.hazard_core.specs.Commits.{word_count, word_at, with_word, value_word, word_as, word_in, shown_word, shown_to_host, written_word, host_written, may_write, host_change};

use crate::access::{Access, Word};
use crate::change::Change;
use crate::commit::key_in;
use crate::operation::number_in;
use crate::slot::Slot;
use crate::tables::Tables;
use cell_core::xdp_state::memory;
use xdp_maps::decl::{MapDecl, MapKind};
use xdp_maps::short::ShortBytes;

/// How many words of eight so many bytes take.
fn word_count(bytes: u32) -> u32
    requires { bytes ≤ 64 }
    ensures count { result ≡ word_count bytes }
    ensures few { result ≤ 8 }
{
    (bytes + 7) / 8
}

fn value_word(decl: &MapDecl, word: u32) -> Word
    requires { decl.now.value ≤ 64 }
    ensures { result ≡ value_word decl.now word }
{
    if word < word_count(decl.value) {
        Word::Value(word)
    } else {
        Word::Nothing
    }
}

/// What a word of a slot is, by the declaration of its map.
fn word_as(decl: &MapDecl, word: u32) -> Word
    requires key { decl.now.key ≤ 64 }
    requires value { decl.now.value ≤ 64 }
    ensures { result ≡ word_as decl.now.kind decl.now word }
{
    match decl.kind {
        MapKind::Hash => {
            let keys = word_count(decl.key);
            if word == 0 {
                Word::Used
            } else if word <= keys {
                Word::Key(word - 1)
            } else {
                value_word(decl, word - 1 - keys)
            }
        }
        MapKind::Array => value_word(decl, word),
    }
}

/// The word that an access names, where there is one.
pub fn word_in(tables: &Tables, access: Access) -> Word
    ensures { result ≡ word_in tables.now access }
{
    if (access.map as usize) < tables.decls().len()
        && (access.index as usize) < tables.slots(access.map).len()
    {
        word_as(tables.decl(access.map), access.word)
    } else {
        Word::Nothing
    }
}

fn shown_word(slot: &Slot, word: Word) -> u64
    ensures { result ≡ shown_word slot.now word }
{
    match word {
        Word::Used => if slot.used { 1 } else { 0 },
        Word::Key(w) => number_in(slot.key.as_slice(), 8 * w as usize, 8),
        Word::Value(w) => number_in(slot.value.as_slice(), 8 * w as usize, 8),
        Word::Nothing => 0,
    }
}

/// What the host reads.
pub fn shown_to_host(tables: &Tables, access: Access) -> u64
    ensures { result ≡ shown_to_host tables.now access }
{
    match word_in(tables, access) {
        Word::Nothing => 0,
        word => shown_word(&tables.slots(access.map)[access.index as usize], word),
    }
}

/// Writes a word of bytes; a last one that is not whole takes the low bytes of the number.
fn write_bytes(bytes: &mut ShortBytes, word: u32, number: u64)
    ensures value { bytes.new ≡ with_word bytes.old word number }
    ensures count { length bytes.new ≡ length bytes.old }
{
    let at = 8 * word as usize;
    let len = bytes.as_slice().len();
    if at < len {
        let all = memory::bytes_of(number);
        bytes.write(at, &all[..8.min(len - at)]);
    }
}

fn written_word(slot: &Slot, word: Word, number: u64) -> Slot
    ensures slot { result ≡ written_word slot.now word number }
    ensures key { length result.key ≡ length slot.now.key }
    ensures value { length result.value ≡ length slot.now.value }
{
    let mut slot = slot.copied();
    match word {
        Word::Used => slot.used = number != 0,
        Word::Key(w) => write_bytes(&mut slot.key, w, number),
        Word::Value(w) => write_bytes(&mut slot.value, w, number),
        Word::Nothing => {}
    }
    slot
}

/// Writes a number into the word that an access names.
#[tactic(auto, unfolding(crate::specs::Commits::host_written))]
pub fn write(tables: &mut Tables, access: Access, number: u64)
    requires { access.map < length tables.old.decls }
    ensures { tables.new ≡ host_written tables.old access number }
{
    let word = word_in(tables, access);
    let at = access.index as usize;
    let slots = tables.slots(access.map);
    if at < slots.len() {
        let slot = written_word(&slots[at], word, number);
        tables.put(access.map, at, slot);
    }
}

/// Whether the host may write the word that an access names: while packets are inside a value of a used slot alone.
pub fn may_write(tables: &Tables, idle: bool, access: Access) -> bool
    ensures may { result ≡ may_write idle (slot_at (table_at tables.now access.map) access.index) (word_in tables.now access) }
    ensures map { result ≡ true → access.map < length tables.now.decls }
{
    match word_in(tables, access) {
        Word::Nothing => false,
        Word::Value(_) => idle || tables.slots(access.map)[access.index as usize].used,
        _ => idle,
    }
}

/// The change that such a write makes.
pub fn host_change(tables: &Tables, access: Access) -> Change
    requires { access.map < length tables.now.decls }
    ensures { result ≡ host_change tables.now access }
{
    let at = access.index as usize;
    Change {
        map: access.map,
        slot: at,
        key: key_in(tables.slots(access.map), at),
        presence: false,
    }
}
