//! Arrays: the values by index.
ghost use Rattle.std.specs.Prelude.{◌≡◌, ◌+◌, ◌≤◌, ◌^◌, length, replicate, slice_get, IfNone, IfSome, IfOk, MatchOption};
ghost use Rattle.std.specs.Option.{option_copied};
ghost use Rattle.std.specs.FinMap as map;
ghost use Rattle.xdp_maps.specs.Contents.{index_of, index_key, array_of};
ghost use Rattle.xdp_maps.specs.Calls.{array_refusal, number_of, unless, stored};

use crate::errno::{E2BIG, EEXIST, EINVAL};
use crate::short::ShortBytes;
use byteorder::{ByteOrder, LittleEndian};
use std::alloc::{AllocError, Global};

fn index(key: &[u8]) -> usize
    requires { length key.now ≡ 4 }
    ensures { result ≡ index_of key.now }
{
    LittleEndian::read_u32(key) as usize
}

/// The value under a key.
pub fn lookup<'a>(values: &'a [ShortBytes], key: &[u8]) -> Option<&'a [u8]>
    requires few { length values.now ≤ 2 ^ 32 }
    requires key { length key.now ≡ 4 }
    ensures { option_copied result ≡ map.get (array_of values.now) key.now }
{
    let i = index(key);
    if i < values.len() {
        Some(values[i].as_slice())
    } else {
        None
    }
}

fn refusal(cap: usize, index: usize, flags: u64) -> Option<i64>
    ensures { result ≡ array_refusal cap index flags }
{
    if flags > 2 {
        Some(EINVAL)
    } else if index >= cap {
        Some(E2BIG)
    } else if flags == 1 {
        Some(EEXIST)
    } else {
        None
    }
}

/// bpf_map_update_elem on an array.
pub fn update(values: &mut [ShortBytes], key: &[u8], value: &[u8], flags: u64) -> i64
    requires few { length values.old ≤ 2 ^ 32 }
    requires key { length key.now ≡ 4 }
    requires value_short { length value.now ≤ 64 }
    ensures number { result ≡ number_of (array_refusal (length values.old) (index_of key.now) flags) }
    ensures contents { array_of values.new ≡ unless (array_refusal (length values.old) (index_of key.now) flags) (array_of values.old) (map.insert (array_of values.old) key.now value.now) }
{
    let i = index(key);
    match refusal(values.len(), i, flags) {
        Some(error) => error,
        None => {
            values[i] = ShortBytes::of(value);
            0
        }
    }
}

/// Writes bytes into the value under a key, if there is one.
pub fn write(values: &mut [ShortBytes], key: &[u8], at: usize, bytes: &[u8]) -> bool
    requires few { length values.old ≤ 2 ^ 32 }
    requires key { length key.now ≡ 4 }
    requires inside { IfSome (map.get (array_of values.old) key.now) (λ v. at + length bytes.now ≤ length v) }
    ensures present { result ≡ map.contains_key (array_of values.old) key.now }
    ensures contents { array_of values.new ≡ stored (array_of values.old) key.now at bytes.now }
{
    let i = index(key);
    if i < values.len() {
        values[i].write(at, bytes);
        true
    } else {
        false
    }
}

/// Takes the values of another array of as many.
pub fn copy_from(values: &mut [ShortBytes], from: &[ShortBytes])
    requires { length values.old ≡ length from.now }
    ensures { values.new ≡ from.now }
{
    for i in 0..values.len() {
        values[i] = from[i].copied();
    }
}

/// An array of so many values of zeros.
pub fn new(alloc: Global, cap: usize, value: usize) -> Result<Vec<ShortBytes>, AllocError>
    requires { value ≤ 64 }
    ensures { IfOk result (λ v. v.items ≡ replicate cap (replicate value 0)) }
{
    let mut values = Vec::with_capacity(alloc, cap)?;
    for _ in 0..cap {
        values.push_reserved(ShortBytes::zeros(value));
    }
    Ok(values)
}

/// Puts the key of an index into `key`, and answers its value.
pub fn entry<'a>(values: &'a [ShortBytes], i: u32, key: &mut [u8]) -> Option<&'a [u8]>
    requires { length key.old ≡ 4 }
    ensures found { MatchOption result (slice_get values.now i ≡ None) (λ v. (slice_get values.now i ≡ Some v.now) × (key.new ≡ index_key i)) }
    ensures none { IfNone result (key.new ≡ key.old) }
{
    let at = i as usize;
    if at < values.len() {
        LittleEndian::write_u32(key, i);
        Some(values[at].as_slice())
    } else {
        None
    }
}
