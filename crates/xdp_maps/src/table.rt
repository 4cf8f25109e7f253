//! One map in memory: a hash or an array.
ghost use Rattle.std.specs.Prelude.{◌≡◌, ◌+◌, ◌≤◌, length, IfNone, IfOk, MatchOption};
ghost use Rattle.std.specs.Option.{option_copied};

use crate::change::Change;
use crate::decl::{MapDecl, MapKind};
use crate::errno::EINVAL;
use crate::hash::Entry;
use crate::short::ShortBytes;
use crate::{array, hash};
use byteorder::{ByteOrder, LittleEndian};
use std::alloc::{AllocError, Global};

#[derive(Drop)]
pub enum Table {
    Hash(Vec<Entry>),
    Array(Vec<ShortBytes>),
}

impl Table {
    ghost use Rattle.xdp_maps.specs.Contents.{IsWithinLimits, opened};
    ghost use Rattle.xdp_maps.specs.Calls.{lookup_of, update_number, updated, delete_number, deleted, stored, change_bytes, number_before, changed, entry_of};
    ghost use Rattle.xdp_maps.specs.Tables.{IsTable, contents_of};
    ghost use Rattle.std.specs.FinMap as map;

    /// A map with nothing written, and all the memory that it will need.
    pub fn new(alloc: Global, decl: &MapDecl) -> Result<Table, AllocError>
        requires { IsWithinLimits decl.now }
        ensures contents { IfOk result (λ t. contents_of t ≡ opened decl.now) }
        ensures kept { IfOk result (IsTable decl.now) }
    {
        let cap = decl.cap as usize;
        match decl.kind {
            MapKind::Hash => Ok(Table::Hash(hash::new(alloc, cap)?)),
            MapKind::Array => Ok(Table::Array(array::new(alloc, cap, decl.value as usize)?)),
        }
    }

    /// The value under a key.
    pub fn lookup(&self, decl: &MapDecl, key: &[u8]) -> Option<&[u8]>
        requires kept { IsTable decl.now self.now }
        requires key { length key.now ≡ decl.now.key }
        ensures { option_copied result ≡ lookup_of (contents_of self.now) key.now }
    {
        match self {
            Table::Hash(entries) => hash::lookup(entries, key),
            Table::Array(values) => array::lookup(values, key),
        }
    }

    /// bpf_map_update_elem.
    pub fn update(&mut self, decl: &MapDecl, key: &[u8], value: &[u8], flags: u64) -> i64
        requires kept { IsTable decl.now self.old }
        requires key { length key.now ≡ decl.now.key }
        requires value { length value.now ≡ decl.now.value }
        ensures number { result ≡ update_number decl.now (contents_of self.old) key.now flags }
        ensures contents { contents_of self.new ≡ updated decl.now (contents_of self.old) key.now value.now flags }
        ensures kept { IsTable decl.now self.new }
    {
        match self {
            Table::Hash(entries) => hash::update(decl.cap as usize, entries, key, value, flags),
            Table::Array(values) => array::update(values, key, value, flags),
        }
    }

    /// bpf_map_delete_elem.
    pub fn delete(&mut self, decl: &MapDecl, key: &[u8]) -> i64
        requires kept { IsTable decl.now self.old }
        requires key { length key.now ≡ decl.now.key }
        ensures number { result ≡ delete_number decl.now (contents_of self.old) key.now }
        ensures contents { contents_of self.new ≡ deleted decl.now (contents_of self.old) key.now }
        ensures kept { IsTable decl.now self.new }
    {
        match self {
            Table::Hash(entries) => hash::delete(entries, key),
            Table::Array(_) => EINVAL,
        }
    }

    /// Writes bytes into the value under a key, if there is one.
    pub fn write(&mut self, decl: &MapDecl, key: &[u8], at: usize, bytes: &[u8]) -> bool
        requires kept { IsTable decl.now self.old }
        requires key { length key.now ≡ decl.now.key }
        requires inside { at + length bytes.now ≤ decl.now.value }
        ensures present { result ≡ map.contains_key (contents_of self.old) key.now }
        ensures contents { contents_of self.new ≡ stored (contents_of self.old) key.now at bytes.now }
        ensures kept { IsTable decl.now self.new }
    {
        match self {
            Table::Hash(entries) => hash::write(entries, key, at, bytes),
            Table::Array(values) => array::write(values, key, at, bytes),
        }
    }

    /// Takes what another table of the same declaration holds.
    pub fn copy_from(&mut self, decl: &MapDecl, from: &Table)
        requires kept { IsTable decl.now self.old }
        requires from { IsTable decl.now from.now }
        ensures contents { contents_of self.new ≡ contents_of from.now }
        ensures kept { IsTable decl.now self.new }
    {
        match (self, from) {
            (Table::Hash(entries), Table::Hash(others)) => hash::copy_from(entries, others),
            (Table::Array(values), Table::Array(others)) => array::copy_from(values, others),
            _ => unreachable!(),
        }
    }

    /// Changes a number in the value under a key, if there is one, and answers what it was.
    pub fn rmw(&mut self, decl: &MapDecl, key: &[u8], at: usize, change: Change) -> Option<u64>
        requires kept { IsTable decl.now self.old }
        requires key { length key.now ≡ decl.now.key }
        requires inside { at + change_bytes change.wide ≤ decl.now.value }
        ensures number { result ≡ number_before (contents_of self.old) key.now at change }
        ensures contents { contents_of self.new ≡ changed (contents_of self.old) key.now at change }
        ensures kept { IsTable decl.now self.new }
    {
        let old = change.number_at(self.lookup(decl, key)?, at);
        let mut bytes = [0; 8];
        LittleEndian::write_u64(&mut bytes, change.result_on(old));
        self.write(decl, key, at, &bytes[..change.bytes()]);
        Some(old)
    }

    /// Puts the key of a pair into `key`, and answers its value: of a hash in the order of the keys'
    /// bytes, of an array by index.
    pub fn entry(&self, decl: &MapDecl, i: u32, key: &mut [u8]) -> Option<&[u8]>
        requires kept { IsTable decl.now self.now }
        requires key { length key.old ≡ decl.now.key }
        ensures found { MatchOption result (entry_of decl.now (contents_of self.now) i ≡ None) (λ v. entry_of decl.now (contents_of self.now) i ≡ Some (key.new, v.now)) }
        ensures none { IfNone result (key.new ≡ key.old) }
    {
        match self {
            Table::Hash(entries) => hash::entry(entries, i as usize, key),
            Table::Array(values) => array::entry(values, i, key),
        }
    }
}
