//! The names of nets.

ghost use Rattle.std.specs.Prelude.{◌≡◌, ◌+◌, ◌<◌, ◌≤◌, [], length, map, string_bytes, IfOk};
ghost use Rattle.std.proofs.Common.{get_or};
ghost use Rattle.net_core.specs.Names as net_names;
ghost use Rattle.net_core.specs.View.{netlist_of};
ghost use Rattle.verilog_write.specs.VerilogGrammar.Grammar as grammar;
ghost use Rattle.verilog_lex.specs.Spelling.{IsName};
ghost use Rattle.verilog_write.specs.Places.{ArePlaces};
ghost use Rattle.verilog_write.specs.Sorts as sorts;
ghost use Rattle.verilog_write.specs.Writable.{IsNamed};

use net_core::design::{Declared, Design};
use net_core::tree::Net;
use std::alloc::{AllocError, Global};

/// A sort of what is declared.
#[derive(Clone, Copy)]
pub enum Sort {
    Integer,
    Register,
    Memory,
}

/// Whether what is declared is of a sort.
fn is_of(sort: Sort, item: &Declared) -> bool
    ensures { result ≡ sorts.is_of sort item.now }
{
    match sort {
        Sort::Integer => matches!(item, Declared::Integer),
        Sort::Register => matches!(item, Declared::Register(_)),
        Sort::Memory => matches!(item, Declared::Memory { .. }),
    }
}

/// The places of what is declared of a sort, in order.
fn places_of(alloc: Global, sort: Sort, declared: &[Declared]) -> Result<Vec<usize>, AllocError>
    ensures { IfOk result (λ places. ArePlaces (sorts.is_of sort) declared.now places.items) }
{
    let mut places = Vec::new(alloc);
    for place in 0..declared.len() {
        if is_of(sort, &declared[place]) {
            places.push(place)?;
        }
    }
    Ok(places)
}

/// A design, with the places of what is declared of each sort.
#[derive(Drop)]
pub struct Names<'a> {
    pub design: &'a Design,
    integers: Vec<usize>,
    registers: Vec<usize>,
    memories: Vec<usize>,
    ghost integers_placed: { ArePlaces net_names.is_integer design.now.declared.items integers.items },
    ghost registers_placed: { ArePlaces net_names.is_register design.now.declared.items registers.items },
    ghost memories_placed: { ArePlaces net_names.is_memory design.now.declared.items memories.items },
}

impl<'a> Names<'a> {
    /// Finds the places, in one pass for each sort.
    pub fn new(alloc: Global, design: &'a Design) -> Result<Names<'a>, AllocError>
        ensures { IfOk result (λ names. names.design.now ≡ design.now) }
    {
        let integers = places_of(alloc, Sort::Integer, &design.declared)?;
        let registers = places_of(alloc, Sort::Register, &design.declared)?;
        let memories = places_of(alloc, Sort::Memory, &design.declared)?;
        Ok(Names {
            design,
            integers,
            registers,
            memories,
        })
    }

    /// The places of a sort.
    fn places(&self, sort: Sort) -> &[usize]
        ensures { ArePlaces (sorts.is_of sort) self.now.design.now.declared.items result.now }
    {
        match sort {
            Sort::Integer => &self.integers,
            Sort::Register => &self.registers,
            Sort::Memory => &self.memories,
        }
    }

    /// The place of number `k` among those of a sort.
    fn place_of(&self, sort: Sort, k: u32) -> usize
        ensures { result ≡ net_names.place_of (sorts.is_of sort) self.now.design.now.declared.items k }
    {
        let places = self.places(sort);
        let k = k as usize;
        if k < places.len() {
            places[k]
        } else {
            self.design.declared.len() + (k - places.len())
        }
    }
}

/// The place of a net's name.
fn net_place(names: &Names, net: Net) -> usize
    requires { net_names.name_place (netlist_of names.now.design.now) net < length names.now.design.now.names.items }
    ensures { result ≡ net_names.name_place (netlist_of names.now.design.now) net }
{
    let design = names.design;
    match net {
        Net::Port(k) => k as usize,
        Net::Register(k) => design.ports.len() + names.place_of(Sort::Register, k),
        Net::Memory(k) => design.ports.len() + names.place_of(Sort::Memory, k),
        Net::Wire(k) => design.ports.len() + design.declared.len() + k as usize,
    }
}

/// The name at a place.
pub fn name_at(names: &[String], place: usize) -> &[u8]
    requires { IsName (get_or (map string_bytes names.now) place []) }
    ensures { result.now ≡ get_or (map string_bytes names.now) place [] }
{
    names[place].as_bytes()
}

/// The name of a net.
pub fn net_name<'a>(names: &Names<'a>, net: Net) -> &'a [u8]
    requires { IsNamed (netlist_of names.now.design.now) net }
    ensures { result.now ≡ net_names.name_of (netlist_of names.now.design.now) net }
{
    name_at(&names.design.names, net_place(names, net))
}

/// The name of an integer.
pub fn integer_name<'a>(names: &Names<'a>, k: u32) -> &'a [u8]
    requires { IsName (grammar.integer_name (netlist_of names.now.design.now) k) }
    ensures { result.now ≡ grammar.integer_name (netlist_of names.now.design.now) k }
{
    let design = names.design;
    let place = design.ports.len() + names.place_of(Sort::Integer, k);
    name_at(&design.names, place)
}
