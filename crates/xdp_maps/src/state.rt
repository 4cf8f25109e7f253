//! All maps of a program.
ghost use Rattle.std.specs.Prelude.{◌≡◌, ◌+◌, ◌<◌, ◌≤◌, length, is_some, All, IfNone, IfOk, MatchOption, Some, None};
ghost use Rattle.std.specs.Option.{option_copied};

use crate::change::Change;
use crate::decl::MapDecl;
use crate::table::Table;
use std::alloc::{AllocError, Global};
use std::marker::Model;

/// What the maps of a program hold. All the memory that they ever need is taken at the start.
#[derive(Drop)]
pub struct Maps {
    decls: Vec<MapDecl>,
    tables: Vec<Table>,
}

impl Model for Maps {
    ghost use Rattle.std.specs.Coded.{codes};
    ghost use Rattle.xdp_maps.specs.State.{MapState, contents_code};

    ghost Value = { MapState };

    ghost coded = { Prim.hlevel (codes, contents_code) };

    ghost use Rattle.xdp_maps.specs.StateView.{view_of, IsState};

    ghost view = { view_of };

    ghost invariant = { IsState };
}

impl Maps {
    ghost use Rattle.xdp_maps.specs.Contents.{IsWithinLimits};
    ghost use Rattle.xdp_maps.specs.Calls.{lookup_of, update_number, updated, delete_number, deleted, stored, change_bytes, number_before, changed, entry_of};
    ghost use Rattle.xdp_maps.specs.State.{opened_state, decl_at, contents_at, with_contents, IsSound};

    /// Hashes are empty, and arrays hold zeros.
    pub fn new(alloc: Global, decls: &[MapDecl]) -> Result<Maps, AllocError>
        requires { All IsWithinLimits decls.now }
        ensures { IfOk result (λ m. m ≡ opened_state decls.now) }
    {
        let mut own = Vec::with_capacity(alloc, decls.len())?;
        let mut tables = Vec::with_capacity(alloc, decls.len())?;
        for decl in decls {
            tables.push_reserved(Table::new(alloc, decl)?);
            own.push_reserved(decl.copied());
        }
        Ok(Maps { decls: own, tables })
    }

    /// The declarations, and that each map holds what its declaration allows.
    pub fn decls(&self) -> &[MapDecl]
        ensures decls { result.now ≡ self.now.decls }
        ensures sound { IsSound self.now }
    {
        &self.decls
    }

    /// The value under a key.
    pub fn lookup(&self, map: u32, key: &[u8]) -> Option<&[u8]>
        requires map { map < length self.now.decls }
        requires key { length key.now ≡ (decl_at self.now map).key }
        ensures { option_copied result ≡ lookup_of (contents_at self.now map) key.now }
    {
        let i = map as usize;
        self.tables[i].lookup(&self.decls[i], key)
    }

    /// bpf_map_update_elem: 0, or its error.
    pub fn update(&mut self, map: u32, key: &[u8], value: &[u8], flags: u64) -> i64
        requires map { map < length self.old.decls }
        requires key { length key.now ≡ (decl_at self.old map).key }
        requires value { length value.now ≡ (decl_at self.old map).value }
        ensures number { result ≡ update_number (decl_at self.old map) (contents_at self.old map) key.now flags }
        ensures maps { self.new ≡ with_contents self.old map (updated (decl_at self.old map) (contents_at self.old map) key.now value.now flags) }
    {
        let i = map as usize;
        self.tables[i].update(&self.decls[i], key, value, flags)
    }

    /// bpf_map_delete_elem: 0, or its error.
    pub fn delete(&mut self, map: u32, key: &[u8]) -> i64
        requires map { map < length self.old.decls }
        requires key { length key.now ≡ (decl_at self.old map).key }
        ensures number { result ≡ delete_number (decl_at self.old map) (contents_at self.old map) key.now }
        ensures maps { self.new ≡ with_contents self.old map (deleted (decl_at self.old map) (contents_at self.old map) key.now) }
    {
        let i = map as usize;
        self.tables[i].delete(&self.decls[i], key)
    }

    /// Writes bytes into the value under a key from a place on, and says whether the key is there.
    pub fn store(&mut self, map: u32, key: &[u8], at: u32, bytes: &[u8]) -> bool
        requires map { map < length self.old.decls }
        requires key { length key.now ≡ (decl_at self.old map).key }
        requires inside { at + length bytes.now ≤ (decl_at self.old map).value }
        ensures present { result ≡ is_some (lookup_of (contents_at self.old map) key.now) }
        ensures maps { self.new ≡ with_contents self.old map (stored (contents_at self.old map) key.now at bytes.now) }
    {
        let i = map as usize;
        self.tables[i].write(&self.decls[i], key, at as usize, bytes)
    }

    /// Changes a number in the value under a key in one step, and answers what it was: None where the
    /// key is not there.
    pub fn rmw(&mut self, map: u32, key: &[u8], at: u32, change: Change) -> Option<u64>
        requires map { map < length self.old.decls }
        requires key { length key.now ≡ (decl_at self.old map).key }
        requires inside { at + change_bytes change.wide ≤ (decl_at self.old map).value }
        ensures before { result ≡ number_before (contents_at self.old map) key.now at change }
        ensures maps { self.new ≡ with_contents self.old map (changed (contents_at self.old map) key.now at change) }
    {
        let i = map as usize;
        self.tables[i].rmw(&self.decls[i], key, at as usize, change)
    }

    /// Puts the key of the i-th pair into `key` and answers its value: of a hash in the order of the
    /// keys' bytes, of an array by index. Past the last pair it answers None and leaves `key`.
    pub fn entry(&self, map: u32, i: u32, key: &mut [u8]) -> Option<&[u8]>
        requires map { map < length self.now.decls }
        requires key { length key.old ≡ (decl_at self.now map).key }
        ensures pair { MatchOption result (entry_of (decl_at self.now map) (contents_at self.now map) i ≡ None) (λ v. entry_of (decl_at self.now map) (contents_at self.now map) i ≡ Some (key.new, v.now)) }
        ensures none { IfNone result (key.new ≡ key.old) }
    {
        let at = map as usize;
        self.tables[at].entry(&self.decls[at], i, key)
    }

    /// Makes the maps equal to others of the same declarations.
    pub fn copy_from(&mut self, from: &Maps)
        requires { self.old.decls ≡ from.now.decls }
        ensures { self.new ≡ from.now }
    {
        for i in 0..self.tables.len() {
            self.tables[i].copy_from(&self.decls[i], &from.tables[i]);
        }
    }
}
