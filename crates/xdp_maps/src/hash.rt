//! Hashes: entries in the order of their keys' bytes, in room that is taken at the start.
ghost use Rattle.std.specs.Prelude.{ℕ, List, slice_get, slice_index_or, IfNone, MatchOption, ◌≡◌, ◌+◌, ◌<◌, ◌≤◌, length, IfOk, IfErr, IfSome, IsTrue, is_ok, vec_len, vec_capacity, ◌⊎◌, []};
ghost use Rattle.std.specs.Option.{option_copied};
ghost use Rattle.std.specs.Ordering.{nat_cmp};
ghost use Rattle.std.specs.Cmp.Lexicographic.{slice_cmp};
ghost use Rattle.std.specs.FinMap as map;
ghost use Rattle.xdp_maps.specs.Calls.{hash_refusal, delete_error_as, number_of, unless, stored};
ghost use Rattle.xdp_maps.specs.Layout.{IsRising, IsAt, IsGapFor};

use crate::decl::MapKind;
use crate::errno::{E2BIG, EEXIST, EINVAL, ENOENT};
use crate::short::ShortBytes;
use std::alloc::{AllocError, Global};
use std::cmp::Ordering;

/// A key and its value.
pub type Entry = (ShortBytes, ShortBytes);

fn compare(entry: &Entry, key: &[u8]) -> Ordering
    ensures { result ≡ slice_cmp nat_cmp entry.now.0 key.now }
{
    entry.0.as_slice().cmp(&key)
}

/// Where a key is, or where it would go.
pub fn place(entries: &[Entry], key: &[u8]) -> Result<usize, usize>
    requires { IsRising (slice_cmp nat_cmp) entries.now }
    ensures found { IfOk result (IsAt entries.now key.now) }
    ensures absent { IfErr result (IsGapFor (slice_cmp nat_cmp) entries.now key.now) }
    ensures present { is_ok result ≡ map.contains_key (map.from_sorted {R = slice_cmp nat_cmp} entries.now) key.now }
{
    entries.binary_search_by(|entry| compare(entry, key))
}

/// The value under a key.
pub fn lookup<'a>(entries: &'a [Entry], key: &[u8]) -> Option<&'a [u8]>
    requires { IsRising (slice_cmp nat_cmp) entries.now }
    ensures { option_copied result ≡ map.get (map.from_sorted {R = slice_cmp nat_cmp} entries.now) key.now }
{
    match place(entries, key) {
        Ok(i) => Some(entries[i].1.as_slice()),
        Err(_) => None,
    }
}

/// Puts a value under a key, for which there is room.
fn put(entries: &mut Vec<Entry>, at: Result<usize, usize>, key: &[u8], value: &[u8])
    requires rising { IsRising (slice_cmp nat_cmp) entries.old.items }
    requires found { IfOk at (IsAt entries.old.items key.now) }
    requires absent { IfErr at (IsGapFor (slice_cmp nat_cmp) entries.old.items key.now) }
    requires room { IsTrue (is_ok at) ⊎ (vec_len entries.old < vec_capacity entries.old) }
    requires key_short { length key.now ≤ 64 }
    requires value_short { length value.now ≤ 64 }
    ensures contents { map.from_sorted {R = slice_cmp nat_cmp} entries.new.items ≡ map.insert (map.from_sorted entries.old.items) key.now value.now }
    ensures rising { IsRising (slice_cmp nat_cmp) entries.new.items }
    ensures room { vec_capacity entries.old ≤ vec_capacity entries.new }
{
    match at {
        Ok(i) => entries[i].1 = ShortBytes::of(value),
        Err(i) => {
            let entry = (ShortBytes::of(key), ShortBytes::of(value));
            entries.insert(i, entry).unwrap();
        }
    }
}

fn refusal(cap: usize, used: usize, present: bool, flags: u64) -> Option<i64>
    ensures { result ≡ hash_refusal cap used present flags }
{
    if flags > 2 {
        Some(EINVAL)
    } else if flags == 1 && present {
        Some(EEXIST)
    } else if flags == 2 && !present {
        Some(ENOENT)
    } else if !present && used >= cap {
        Some(E2BIG)
    } else {
        None
    }
}

/// bpf_map_update_elem on a hash of this capacity.
pub fn update(cap: usize, entries: &mut Vec<Entry>, key: &[u8], value: &[u8], flags: u64) -> i64
    requires rising { IsRising (slice_cmp nat_cmp) entries.old.items }
    requires room { cap ≤ vec_capacity entries.old }
    requires key_short { length key.now ≤ 64 }
    requires value_short { length value.now ≤ 64 }
    ensures number { let m = map.from_sorted {R = slice_cmp nat_cmp} entries.old.items in
        result ≡ number_of (hash_refusal cap (map.len m) (map.contains_key m key.now) flags) }
    ensures contents { let m = map.from_sorted {R = slice_cmp nat_cmp} entries.old.items in
        map.from_sorted entries.new.items ≡ unless (hash_refusal cap (map.len m) (map.contains_key m key.now) flags) m (map.insert m key.now value.now) }
    ensures rising { IsRising (slice_cmp nat_cmp) entries.new.items }
    ensures room { vec_capacity entries.old ≤ vec_capacity entries.new }
{
    let at = place(entries, key);
    match refusal(cap, entries.len(), at.is_ok(), flags) {
        Some(error) => error,
        None => {
            put(entries, at, key, value);
            0
        }
    }
}

/// bpf_map_delete_elem on a hash.
pub fn delete(entries: &mut Vec<Entry>, key: &[u8]) -> i64
    requires { IsRising (slice_cmp nat_cmp) entries.old.items }
    ensures number { result ≡ number_of (delete_error_as MapKind.Hash (map.from_sorted entries.old.items) key.now) }
    ensures contents { let m = map.from_sorted {R = slice_cmp nat_cmp} entries.old.items in
        map.from_sorted entries.new.items ≡ unless (delete_error_as MapKind.Hash m key.now) m (map.remove m key.now) }
    ensures rising { IsRising (slice_cmp nat_cmp) entries.new.items }
    ensures room { vec_capacity entries.old ≤ vec_capacity entries.new }
{
    match place(entries, key) {
        Ok(i) => {
            entries.remove(i);
            0
        }
        Err(_) => ENOENT,
    }
}

/// Writes bytes into the value under a key, if there is one.
pub fn write(entries: &mut Vec<Entry>, key: &[u8], at: usize, bytes: &[u8]) -> bool
    requires rising { IsRising (slice_cmp nat_cmp) entries.old.items }
    requires inside { IfSome (map.get (map.from_sorted {R = slice_cmp nat_cmp} entries.old.items) key.now) (λ v. at + length bytes.now ≤ length v) }
    ensures present { result ≡ map.contains_key (map.from_sorted {R = slice_cmp nat_cmp} entries.old.items) key.now }
    ensures contents { map.from_sorted {R = slice_cmp nat_cmp} entries.new.items ≡ stored (map.from_sorted entries.old.items) key.now at bytes.now }
    ensures rising { IsRising (slice_cmp nat_cmp) entries.new.items }
    ensures room { vec_capacity entries.old ≤ vec_capacity entries.new }
{
    match place(entries, key) {
        Ok(i) => {
            entries[i].1.write(at, bytes);
            true
        }
        Err(_) => false,
    }
}

/// Takes the entries of another hash, for which there is room.
pub fn copy_from(entries: &mut Vec<Entry>, from: &[Entry])
    requires { length from.now ≤ vec_capacity entries.old }
    ensures entries { entries.new.items ≡ from.now }
    ensures room { vec_capacity entries.old ≤ vec_capacity entries.new }
{
    entries.clear();
    for entry in from {
        entries.push_reserved((entry.0.copied(), entry.1.copied()));
    }
}

/// A hash without entries, with room for so many.
pub fn new(alloc: Global, cap: usize) -> Result<Vec<Entry>, AllocError>
    ensures empty { IfOk result (λ v. v.items ≡ []) }
    ensures room { IfOk result (λ v. cap ≤ vec_capacity v) }
{
    Vec::with_capacity(alloc, cap)
}

/// Puts the key of the entry at a place into `key`, and answers its value.
pub fn entry<'a>(entries: &'a [Entry], i: usize, key: &mut [u8]) -> Option<&'a [u8]>
    requires { (k : ℕ) (d : List ℕ × List ℕ) → k < length entries.now → length (slice_index_or entries.now k d).0 ≡ length key.old }
    ensures found { MatchOption result (slice_get entries.now i ≡ None) (λ v. slice_get entries.now i ≡ Some (key.new, v.now)) }
    ensures none { IfNone result (key.new ≡ key.old) }
{
    if i < entries.len() {
        let entry = &entries[i];
        key.copy_from_slice(entry.0.as_slice());
        Some(entry.1.as_slice())
    } else {
        None
    }
}
