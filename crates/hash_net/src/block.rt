//! The block of a hash.

ghost use Rattle.std.specs.Prelude.{◌≡◌, ◌≤◌, ◌<◌, ◌^◌, ◌++◌, IfOk, OnOk, length, map};
ghost use Rattle.net_core.specs.View.{tree_of, statement_of};
ghost use Rattle.block_core.specs.View.{block_of, block_wire_of};
ghost use Rattle.overlay_net.specs.xdp_maps.Contents.{IsWithinLimits};
ghost use Rattle.overlay_net.specs.xdp_maps.declared.decl.MapKind.TheVariants.{Hash};
ghost use Rattle.overlay_net.specs.hazard_core.Commits.{word_count};
ghost use Rattle.frame_net.specs.Stores.{widths_memory, store_statements};
ghost use Rattle.hash_net.specs.Hash.{IsHash, count_name, value_name};
ghost use Rattle.hash_net.specs.HashNets.{hash_memories, hash_wires, hash_words, hash_statement, key_nets};

use crate::nets::{
    count_after, idle_gate, used_bit, used_sets, value_first, value_gate, value_read,
};
use array_net::words::{WordNets, add_memories, add_stores, word_count};
use array_net::{MapNets, chosen_index, names_slot};
use block_core::block::{Block, BlockMemory, BlockWire};
use block_core::name::{Name, Part};
use cell_nets::cell_core::xdp_state::xdp_maps::decl::MapDecl;
use frame_net::nets::{held, net, wire};
use net_core::build::{binary, block, conditional, constant, statements, when};
use net_core::tree::{Expr, Op, Stmt, Word};
use std::alloc::{AllocError, Global};

/// The nets that ask something of a hash in a clock: beside those of every map whether no packet is inside, and whether an
/// operation puts an entry into the slot, or takes it away.
#[derive(Clone, Copy)]
pub struct HashNets<N> {
    pub map: MapNets<N>,
    pub idle: N,
    pub inserts: N,
    pub deletes: N,
}

/// The register that holds the number of used slots, of one bit more than their numbers, where the part is that of a hash.
pub fn count_name<P: Part>(part: P) -> Name<P>
    ensures { result ≡ count_name part }
{
    Name::Register(part, 0)
}

/// The wire that shows the word that the host names, of 64 bits, where the part is that of a hash.
pub fn value_name<P: Part>(part: P) -> Name<P>
    ensures { result ≡ value_name part }
{
    Name::Wire(part, 7)
}

// Of the used bits, and of the words of keys and of values.
fn memories(alloc: Global, bits: u8, decl: &MapDecl) -> Result<Vec<BlockMemory>, AllocError>
    requires key { decl.now.key ≤ 64 }
    requires value { decl.now.value ≤ 64 }
    ensures { IfOk result (λ r. r.items ≡ map widths_memory (hash_memories bits decl.now)) }
{
    let mut all = Vec::new(alloc);
    all.push(BlockMemory {
        index: bits,
        first: Word { width: 1, value: 0 },
    })?;
    add_memories(&mut all, bits, decl.key)?;
    add_memories(&mut all, bits, decl.value)?;
    Ok(all)
}

// Whether the host names a slot, the index, the used bit there, what the host writes, the used bit that is set, and what the
// host reads.
fn wires<P: Part>(
    alloc: Global,
    part: P,
    number: u8,
    decl: &MapDecl,
    bits: u8,
    nets: HashNets<Name<P>>,
) -> Result<Vec<BlockWire<Name<P>>>, AllocError>
    requires some { 1 ≤ bits }
    requires cap { 1 ≤ decl.now.cap }
    requires key { decl.now.key ≤ 64 }
    requires value { decl.now.value ≤ 64 }
    ensures { IfOk result (λ r. map block_wire_of r.items ≡ hash_wires part number decl.now bits nets) }
{
    let slot = names_slot(alloc, number, decl.cap)?;
    let index = chosen_index(alloc, bits, nets.map)?;
    let used = held(alloc, part, 0, net(part, 1))?;
    let gate = idle_gate(alloc, part, nets)?;
    let values = value_gate(alloc, part, nets)?;
    let sets = used_sets(alloc, part, nets)?;
    let becomes = used_bit(alloc, nets)?;
    let word = value_read(alloc, part, bits, decl)?;
    let value = conditional(alloc, net(part, 0), word, constant(64, 0))?;
    let mut all = Vec::new(alloc);
    all.push(wire(1, slot))?;
    all.push(wire(bits, index))?;
    all.push(wire(1, used))?;
    all.push(wire(1, gate))?;
    all.push(wire(1, values))?;
    all.push(wire(1, sets))?;
    all.push(wire(1, becomes))?;
    all.push(wire(64, value))?;
    Ok(all)
}

// The words of keys and of values are stored.
fn add_words<P: Part>(
    alloc: Global,
    all: &mut Vec<Stmt<Name<P>>>,
    part: P,
    decl: &MapDecl,
    commits: Name<P>,
    keys: &[WordNets<Name<P>>],
    values: &[WordNets<Name<P>>],
) -> Result<(), AllocError>
    requires key { decl.now.key ≤ 64 }
    requires value { decl.now.value ≤ 64 }
    requires key_count { length keys.now ≡ word_count decl.now.key }
    requires value_count { length values.now ≡ word_count decl.now.value }
    ensures { OnOk result (map statement_of all.new.items ≡ map statement_of all.old.items ++ store_statements 1 (hash_words part decl.now commits keys.now values.now)) }
{
    let index = Name::Wire(part, 1);
    let idle = Name::Wire(part, 3);
    add_stores(alloc, all, commits, idle, index, 1, decl.key, keys)?;
    let first = value_first(decl);
    let gate = Name::Wire(part, 4);
    add_stores(alloc, all, commits, gate, index, first, decl.value, values)?;
    Ok(())
}

// The statement of its always block.
fn statement<P: Part>(
    alloc: Global,
    part: P,
    decl: &MapDecl,
    bits: u8,
    nets: HashNets<Name<P>>,
    keys: &[Name<P>],
    values: &[WordNets<Name<P>>],
) -> Result<Stmt<Name<P>>, AllocError>
    requires key { decl.now.key ≤ 64 }
    requires value { decl.now.value ≤ 64 }
    requires key_count { length keys.now ≡ word_count decl.now.key }
    requires value_count { length values.now ≡ word_count decl.now.value }
    ensures { IfOk result (λ s. statement_of s ≡ hash_statement part decl.now bits nets keys.now values.now) }
{
    let mut all = Vec::new(alloc);
    let count = count_after(alloc, part, bits)?;
    all.push(when(alloc, net(part, 5), Stmt::Set(0, count))?)?;
    let used = Stmt::Store(0, net(part, 1), net(part, 6));
    all.push(when(alloc, net(part, 5), used)?)?;
    let keys = nets_of_keys(alloc, nets.inserts, keys)?;
    add_words(alloc, &mut all, part, decl, nets.map.commits, &keys, values)?;
    let whole = block(alloc, statements(alloc, all)?)?;
    Ok(whole)
}

fn net_of_key<N: Copy>(inserts: N, key: N) -> WordNets<N>
    ensures { result ≡ key_nets inserts key }
{
    WordNets {
        sets: inserts,
        word: key,
    }
}

// The words of a key are set with the used bit.
fn nets_of_keys<P: Part>(
    alloc: Global,
    inserts: Name<P>,
    keys: &[Name<P>],
) -> Result<Vec<WordNets<Name<P>>>, AllocError>
    ensures { IfOk result (λ r. r.items ≡ map (key_nets inserts) keys.now) }
{
    let mut all = Vec::new(alloc);
    for key in keys {
        all.push(net_of_key(inserts, *key))?;
    }
    Ok(all)
}

/// The block of a hash, whose slots' numbers have so many bits, as the map of this number.
///
/// Its memories hold whether a slot is used, and by slot the words of keys and of values; a register holds the number of used
/// slots. In a clock an operation puts an entry into a slot or takes it away and sets words of its value, or the host writes the
/// word that it names, or nothing changes. While packets are inside, the host writes values of used slots alone. A wire shows the
/// word that the host names, and 0 where there is none.
pub fn hash<P: Part>(
    alloc: Global,
    part: P,
    number: u8,
    decl: &MapDecl,
    bits: u8,
    nets: HashNets<Name<P>>,
    keys: &[Name<P>],
    values: &[WordNets<Name<P>>],
) -> Result<Block<Name<P>>, AllocError>
    requires number { number < 16 }
    requires kind { decl.now.kind ≡ Hash }
    requires limits { IsWithinLimits decl.now }
    requires some { 1 ≤ bits }
    requires most { bits ≤ 16 }
    requires room { decl.now.cap ≤ 2 ^ bits }
    requires key_count { length keys.now ≡ word_count decl.now.key }
    requires value_count { length values.now ≡ word_count decl.now.value }
    ensures { IfOk result (λ b. IsHash part number decl.now bits nets keys.now values.now (block_of b)) }
{
    let first = Word {
        width: bits + 1,
        value: 0,
    };
    let mut registers = Vec::new(alloc);
    registers.push(first)?;
    let memories = memories(alloc, bits, decl)?;
    let wires = wires(alloc, part, number, decl, bits, nets)?;
    let statement = statement(alloc, part, decl, bits, nets, keys, values)?;
    Ok(Block {
        registers,
        memories,
        wires,
        statement,
    })
}
