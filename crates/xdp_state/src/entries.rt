// Accesses to the entries of maps.

ghost use Rattle.std.specs.Prelude.{◌≡◌, ◌+◌, ◌<◌, ◌≤◌, ◌+ℤ◌, length, slice_get, IfSome};
ghost use Rattle.std.specs.Option.{option_map, option_copied};
ghost use Rattle.xdp_machine.specs.xdp_maps.State.{contents_at, decl_at};
ghost use Rattle.xdp_machine.specs.xdp_maps.Calls.{lookup_of, change_bytes};
ghost use Rattle.xdp_machine.specs.Memory.{bytes_in, aligned, from_entry, number_stored, to_entry};
ghost use Rattle.xdp_machine.specs.Atomics.{changed_entry};
ghost use Rattle.xdp_state.specs.Views.{value_of, key_of};
ghost use Rattle.xdp_state.specs.Cases.{Makes, Changes, IsDeclared};

use crate::memory::{aligned, bytes_in, bytes_of, number_at};
use crate::value::{Key, Value};
use xdp_machine::bpf_isa::Size;
use xdp_machine::xdp_maps::change::Change;
use xdp_machine::xdp_maps::decl::MapDecl;
use xdp_machine::xdp_maps::state::Maps;

/// The declaration of a map.
pub fn declared(maps: &Maps, q: u32) -> Option<&MapDecl>
    ensures decl { option_copied result ≡ slice_get maps.now.decls q }
    ensures known { IfSome result (λ d. IsDeclared maps.now q d.now) }
{
    maps.decls().get(q as usize)
}

// The value under a key. A map has none under a key of another length than its own.
fn value_under<'a>(maps: &'a Maps, decl: &MapDecl, q: u32, key: &[u8]) -> Option<&'a [u8]>
    requires { IsDeclared maps.now q decl.now }
    ensures value { option_copied result ≡ lookup_of (contents_at maps.now q) key.now }
    ensures len { IfSome result (λ v. length v.now ≡ decl.now.value) }
{
    if key.len() != decl.key as usize {
        return None;
    }
    maps.lookup(q, key)
}

// Where an access to a value of so many bytes begins.
fn in_value(o: i64, offset: i16, size: Size, len: u32) -> Option<usize>
    ensures value { result ≡ aligned (o +ℤ offset) (bytes_in size) len }
    ensures within { IfSome result (λ a. a + bytes_in size ≤ len) }
{
    let at = i128::from(o) + i128::from(offset);
    aligned(at, bytes_in(size), len as usize)
}

/// A load at an offset from a place in an entry.
pub fn from_entry(maps: &Maps, q: u32, key: &[u8], o: i64, offset: i16, size: Size) -> Option<Value>
    ensures { option_map value_of result ≡ from_entry maps.now q key.now (o +ℤ offset) size }
{
    let decl = declared(maps, q)?;
    let at = in_value(o, offset, size, decl.value)?;
    let value = value_under(maps, decl, q, key)?;
    Some(Value::Number(number_at(value, at, size)))
}

// A store of a number into the value under a key, if there is one.
#[tactic(auto, using(xdp_machine::proofs::SizeLaws::low_part))]
fn store_number(maps: &mut Maps, q: u32, key: &[u8], at: u32, size: Size, n: u64) -> bool
    requires map { q < length maps.old.decls }
    requires key { length key.now ≡ (decl_at maps.old q).key }
    requires inside { at + bytes_in size ≤ (decl_at maps.old q).value }
    ensures { Makes result (number_stored maps.old q key.now at size n) maps.old maps.new }
{
    maps.store(q, key, at, &bytes_of(n)[..bytes_in(size)])
}

/// A store of a number at an offset from a place in an entry.
pub fn to_entry(
    maps: &mut Maps,
    q: u32,
    key: &[u8],
    o: i64,
    offset: i16,
    size: Size,
    n: u64,
) -> bool
    ensures { Makes result (to_entry maps.old q key.now (o +ℤ offset) size n) maps.old maps.new }
{
    let Some(decl) = declared(maps, q) else {
        return false;
    };
    let Some(at) = in_value(o, offset, size, decl.value) else {
        return false;
    };
    if key.len() != decl.key as usize {
        return false;
    }
    store_number(maps, q, key, at as u32, size, n)
}

/// An atomic change at an offset from a place in an entry: the number that it found.
pub fn change_entry(
    maps: &mut Maps,
    q: u32,
    key: &[u8],
    o: i64,
    offset: i16,
    size: Size,
    change: Change,
) -> Option<u64>
    requires { change_bytes change.wide ≡ bytes_in size }
    ensures { Changes result (changed_entry maps.old q key.now (o +ℤ offset) size change) maps.old maps.new }
{
    let decl = declared(maps, q)?;
    let at = in_value(o, offset, size, decl.value)?;
    if key.len() != decl.key as usize {
        return None;
    }
    maps.rmw(q, key, at as u32, change)
}
