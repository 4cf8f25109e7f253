//! The maps that a function refers to.

ghost use Rattle.std.specs.Prelude.{◌≡◌, ◌≢◌, ◌<◌, ◌≤◌, ℕ, true, length, slice_index_or, IfErr, IfOk, OnOk, Ok, Err, Some, None};
ghost use Rattle.elf_view.specs.File.{e_shnum, e_shstrndx, section_bytes};
ghost use Rattle.elf_view.specs.Rules.{first_error};
ghost use Rattle.xdp_machine.specs.Program.{IsDeclaration};
ghost use Rattle.xdp_object.specs.declared.relocated.Relocated.TheVariants.{Refers, Untouched};
ghost use Rattle.xdp_object.specs.Maps.{AreMaps, IsNameIn, all_in_places, btf_bytes, map_numbers, next_map, no_maps};
ghost use Rattle.xdp_object.specs.Relocations.{is_map_symbol};

use crate::error::ObjectError;
use crate::functions::symbol_name;
use crate::map_records::{MapFault, MapRule, declare, record_fields, variable_fields};
use crate::parts::{is_map_name, is_taken};
use crate::relocated::Relocated;
use crate::relocations::has_name;
use btf_view::MapFields;
use elf_view::ElfView;
use std::alloc::Global;
use std::marker::Model;
use xdp_maps::decl::MapDecl;
use xdp_maps::short::ShortBytes;

/// The most maps of a program.
const MOST_MAPS: usize = 16;

/// The maps of a function by their numbers: the symbol and the declaration of each. Contracts see it as a `MapTable` of the
/// definitions.
#[derive(Drop)]
pub struct MapTable {
    symbols: Vec<u32>,
    decls: Vec<MapDecl>,
}

impl Model for MapTable {
    ghost use Rattle.xdp_object.specs.Maps.{MapTable};

    ghost Value = { MapTable };

    ghost view = { λ t. record { symbols = t.symbols.items; decls = t.decls.items } };
}

/// The bytes of the first section named `.BTF`, none without one.
#[tactic(auto, unfolding(crate::specs::Maps::btf_bytes))]
fn btf_bytes<'a>(view: &ElfView<'a>, names: &[u8]) -> &'a [u8]
    requires { names.now ≡ section_bytes view.now (e_shstrndx view.now) }
    ensures { result.now ≡ btf_bytes view.now }
{
    for i in 0..view.sections() {
        if has_name(view, names, i, b".BTF") {
            return view.bytes_of(i);
        }
    }
    &[]
}

/// The numbers that the object says of the map of symbol `n`, of this name.
#[tactic(auto, unfolding(crate::specs::Maps::map_numbers))]
fn map_numbers(
    view: &ElfView<'_>,
    names: &[u8],
    n: u32,
    name: &[u8],
) -> Result<MapFields, ObjectError>
    requires names { names.now ≡ section_bytes view.now (e_shstrndx view.now) }
    requires map { is_map_symbol view.now n ≡ true }
    ensures { result ≡ map_numbers view.now n name.now }
{
    let symbol = view.symbol(n);
    let section = u32::from(symbol.section);
    if has_name(view, names, section, b"maps") {
        match record_fields(view.bytes_of(section), symbol.value, symbol.size) {
            Ok(fields) => Ok(fields),
            Err(rule) => Err(ObjectError::Map { symbol: n, rule }),
        }
    } else {
        match variable_fields(btf_bytes(view, names), name) {
            Ok(fields) => Ok(fields),
            Err(MapFault::Rule(rule)) => Err(ObjectError::Map { symbol: n, rule }),
            Err(MapFault::Btf(error)) => Err(ObjectError::Btf(error)),
        }
    }
}

/// The declaration of the map of symbol `n`, after those before it.
#[tactic(auto, unfolding(crate::specs::Maps::next_map))]
fn next_map(
    view: &ElfView<'_>,
    names: &[u8],
    before: &[MapDecl],
    n: u32,
    hash_cap: u32,
) -> Result<MapDecl, ObjectError>
    requires opened { first_error view.now ≡ None }
    requires names { names.now ≡ section_bytes view.now (e_shstrndx view.now) }
    requires map { is_map_symbol view.now n ≡ true }
    ensures value { result ≡ next_map hash_cap view.now before.now n }
    ensures few { OnOk result (length before.now < 16) }
    ensures declaration { IfOk result IsDeclaration }
    ensures free { IfOk result (λ d. ¬ IsNameIn before.now d.name) }
{
    if before.len() >= MOST_MAPS {
        return Err(ObjectError::Map {
            symbol: n,
            rule: MapRule::Many,
        });
    }
    let Ok(name) = symbol_name(view, n) else {
        return Err(ObjectError::Map {
            symbol: n,
            rule: MapRule::Name,
        });
    };
    if !is_map_name(name) || is_taken(before, name) {
        return Err(ObjectError::Map {
            symbol: n,
            rule: MapRule::Name,
        });
    }
    let fields = match map_numbers(view, names, n, name) {
        Ok(fields) => fields,
        Err(error) => return Err(error),
    };
    match declare(ShortBytes::of(name), &fields, hash_cap) {
        Ok(decl) => Ok(decl),
        Err(rule) => Err(ObjectError::Map { symbol: n, rule }),
    }
}

impl MapTable {
    ghost use Rattle.xdp_object.specs.Maps.{referred};

    /// The symbols of the maps.
    pub fn symbols(&self) -> &[u32]
        ensures { result.now ≡ self.now.symbols }
    {
        &self.symbols
    }

    /// The declarations of the maps.
    pub fn into_decls(self) -> Vec<MapDecl>
        ensures { result.items ≡ self.decls }
    {
        self.decls
    }

    /// Refers to the map of symbol `n`: a new map is entered after the others.
    #[tactic(auto, unfolding(crate::specs::Maps::referred))]
    fn refer(
        &mut self,
        view: &ElfView<'_>,
        names: &[u8],
        n: u32,
        hash_cap: u32,
    ) -> Result<(), ObjectError>
        requires opened { first_error view.now ≡ None }
        requires names { names.now ≡ section_bytes view.now (e_shstrndx view.now) }
        requires map { is_map_symbol view.now n ≡ true }
        requires maps { AreMaps self.old }
        ensures ok { OnOk result (referred hash_cap view.now self.old n ≡ Ok self.new) }
        ensures maps { OnOk result (AreMaps self.new) }
        ensures error { IfErr result (λ e. e ≢ ObjectError.NoMemory → referred hash_cap view.now self.old n ≡ Err e) }
    {
        if self.symbols.contains(&n) {
            return Ok(());
        }
        let decl = match next_map(view, names, &self.decls, n, hash_cap) {
            Ok(decl) => decl,
            Err(error) => return Err(error),
        };
        self.symbols.push(n)?;
        self.decls.push(decl)?;
        Ok(())
    }
}

/// The maps of a function by their numbers, where its relocations say this of its places.
pub fn map_table(
    alloc: Global,
    view: &ElfView<'_>,
    names: &[u8],
    places: &[Relocated],
    hash_cap: u32,
) -> Result<MapTable, ObjectError>
    requires opened { first_error view.now ≡ None }
    requires names { names.now ≡ section_bytes view.now (e_shstrndx view.now) }
    requires maps { (p n : ℕ) → p < length places.now → slice_index_or places.now p Untouched ≡ Refers n → is_map_symbol view.now n ≡ true }
    ensures ok { IfOk result (λ t. all_in_places hash_cap view.now no_maps places.now 0 ≡ Ok t) }
    ensures maps { IfOk result AreMaps }
    ensures error { IfErr result (λ e. e ≢ ObjectError.NoMemory → all_in_places hash_cap view.now no_maps places.now 0 ≡ Err e) }
{
    let mut table = MapTable {
        symbols: Vec::new(alloc),
        decls: Vec::new(alloc),
    };
    for said in places {
        if let Relocated::Refers { symbol } = *said {
            table.refer(view, names, symbol, hash_cap)?;
        }
    }
    Ok(table)
}
