//! The tables of all maps.

ghost use Rattle.std.specs.Prelude.{ℕ, ◌≡◌, ◌<◌, ◌≤◌, ◌^◌, length, slice_set, IfOk};
ghost use Rattle.xdp_maps.specs.State.{decl_at, contents_at};
ghost use Rattle.hazard_core.specs.Tables.{slot_at, loaded_as, loaded_tables};
ghost use Rattle.hazard_core.specs.Shaped.{IsShaped, AreShaped};

use crate::slot::Slot;
use std::alloc::{AllocError, Global};
use std::marker::Model;
use xdp_maps::decl::MapDecl;
use xdp_maps::laws;
use xdp_maps::short::ShortBytes;
use xdp_maps::state::Maps;

/// The slots of one map. Contracts see the list of them.
#[derive(Drop)]
struct Table {
    slots: Vec<Slot>,
}

impl Model for Table {
    ghost use Rattle.std.specs.Prelude.{List};
    ghost use Rattle.hazard_core.specs.Tables.{Slot};

    ghost Value = { List Slot };

    ghost view = { λ t. t.slots.items };
}

/// The declarations of maps, and beside each the table of its map. Contracts see them as a `TableState`, whose slots have keys and
/// values of the declared lengths.
#[derive(Drop)]
pub struct Tables {
    decls: Vec<MapDecl>,
    tables: Vec<Table>,
}

impl Model for Tables {
    ghost use Rattle.hazard_core.specs.Tables.{TableState};

    ghost Value = { TableState };

    ghost use Rattle.hazard_core.specs.Shaped.{AreShaped};

    ghost view = { λ a. record { decls = a.decls.items; tables = a.tables.items } };

    ghost invariant = { λ a. AreShaped (record { decls = a.decls.items; tables = a.tables.items }) };
}

impl Tables {
    ghost use Rattle.xdp_maps.specs.Contents.{IsWithinLimits};
    ghost use Rattle.hazard_core.specs.Tables.{decl_of, table_at, tables_of};
    ghost use Rattle.hazard_core.specs.Commits.{with_slot};
    ghost use Rattle.hazard_core.specs.Shaped.{IsShaped, AreShaped};

    /// The tables of maps that are loaded.
    pub fn new(alloc: Global, maps: &Maps) -> Result<Tables, AllocError>
        requires { length maps.now.decls < 2 ^ 32 }
        ensures { IfOk result (λ t. t ≡ tables_of maps.now) }
    {
        Ok(Tables {
            decls: copied(alloc, maps.decls())?,
            tables: loaded_all(alloc, maps)?,
        })
    }

    /// The declarations.
    pub fn decls(&self) -> &[MapDecl]
        ensures { result.now ≡ self.now.decls }
    {
        &self.decls
    }

    /// The declaration of a map.
    pub fn decl(&self, map: u32) -> &MapDecl
        requires { map < length self.now.decls }
        ensures decl { result.now ≡ decl_of self.now.decls map }
        ensures limits { IsWithinLimits result.now }
        ensures shaped { AreShaped self.now }
    {
        &self.decls[map as usize]
    }

    /// The slots of a map.
    pub fn slots(&self, map: u32) -> &[Slot]
        requires { map < length self.now.decls }
        ensures slots { result.now ≡ table_at self.now map }
        ensures shaped { AreShaped self.now }
    {
        let table = &self.tables[map as usize];
        &table.slots
    }

    /// Puts something else into a slot, if there is such a one.
    #[tactic(auto, using(crate::proofs::Shaping::put_shaped))]
    pub fn put(&mut self, map: u32, at: usize, slot: Slot)
        requires map { map < length self.old.decls }
        requires shape { IsShaped (decl_of self.old.decls map) slot }
        ensures { self.new ≡ with_slot self.old map at slot }
    {
        let table = &mut self.tables[map as usize];
        if at < table.slots.len() {
            table.slots[at] = slot;
        }
    }
}

/// The slot of a number of the table of a map that is loaded.
fn loaded_slot(maps: &Maps, map: u32, i: u32) -> Slot
    requires map { map < length maps.now.decls }
    requires within { i < (decl_at maps.now map).cap }
    ensures { result ≡ slot_at (loaded_as (decl_at maps.now map).kind (decl_at maps.now map) (contents_at maps.now map)) i }
{
    laws::pair_laws();
    laws::index_laws();
    let decl = &maps.decls()[map as usize];
    let mut bytes = [0; 64];
    let key = &mut bytes[..decl.key as usize];
    match maps.entry(map, i, key) {
        Some(value) => Slot {
            used: true,
            key: ShortBytes::of(key),
            value: ShortBytes::of(value),
        },
        None => Slot {
            used: false,
            key: ShortBytes::zeros(decl.key as usize),
            value: ShortBytes::zeros(decl.value as usize),
        },
    }
}

/// The table of a map that is loaded.
fn loaded_table(alloc: Global, maps: &Maps, map: u32) -> Result<Table, AllocError>
    requires { map < length maps.now.decls }
    ensures { IfOk result (λ t. t ≡ loaded_as (decl_at maps.now map).kind (decl_at maps.now map) (contents_at maps.now map)) }
{
    let cap = maps.decls()[map as usize].cap;
    let mut slots = Vec::new(alloc);
    for i in 0..cap {
        slots.push(loaded_slot(maps, map, i))?;
    }
    Ok(Table { slots })
}

/// Copies of declarations.
fn copied(alloc: Global, decls: &[MapDecl]) -> Result<Vec<MapDecl>, AllocError>
    ensures { IfOk result (λ own. own.items ≡ decls.now) }
{
    let mut own = Vec::new(alloc);
    for decl in decls {
        own.push(decl.copied())?;
    }
    Ok(own)
}

/// The tables of all maps that are loaded.
fn loaded_all(alloc: Global, maps: &Maps) -> Result<Vec<Table>, AllocError>
    requires { length maps.now.decls < 2 ^ 32 }
    ensures tables { IfOk result (λ tables. tables.items ≡ loaded_tables maps.now.decls maps.now.contents) }
    ensures shape { IfOk result (λ tables. AreShaped (record { decls = maps.now.decls; tables = tables.items })) }
{
    laws::pair_laws();
    laws::index_laws();
    let mut tables = Vec::new(alloc);
    for map in 0..maps.decls().len() as u32 {
        tables.push(loaded_table(alloc, maps, map)?)?;
    }
    Ok(tables)
}
