//! The block of an array.

ghost use Rattle.std.specs.Prelude.{◌≡◌, ◌≤◌, ◌<◌, ◌^◌, ◌∷◌, [], IfOk, length, map};
ghost use Rattle.net_core.specs.Nets.{TRead};
ghost use Rattle.net_core.specs.View.{tree_of, statement_of};
ghost use Rattle.block_core.specs.View.{block_of, block_wire_of};
ghost use Rattle.xdp_maps.specs.Contents.{IsWithinLimits};
ghost use Rattle.xdp_maps.specs.declared.decl.MapKind.TheVariants.{Array};
ghost use Rattle.hazard_core.specs.Commits.{word_count};
ghost use Rattle.array_net.specs.Array.{IsArray, value_name};
ghost use Rattle.array_net.specs.ArrayNets.{names_slot, has_word, chosen_index, array_wires, array_statement};

use crate::words::{WordNets, add_memories, add_stores, host_index, word_count, words_read};
use block_core::block::{Block, BlockWire};
use block_core::name::{Name, Part};
use frame_net::nets::{net, port, wire};
use net_core::build::{binary, block, conditional, constant, statements};
use net_core::ports::{HOST_INDEX, HOST_MAP, HOST_WORD};
use net_core::tree::{Expr, Op, Stmt};
use std::alloc::{AllocError, Global};
use xdp_maps::decl::MapDecl;

/// The nets that ask something of a map in a clock: whether an operation commits, in which slot, and whether a write of the host
/// goes through, which is never in a clock with an operation.
#[derive(Clone, Copy)]
pub struct MapNets<N> {
    pub commits: N,
    pub slot: N,
    pub writes: N,
}

/// Whether the host names a slot of a map that has so many.
pub fn names_slot<P: Part>(alloc: Global, number: u8, cap: u32) -> Result<Expr<Name<P>>, AllocError>
    requires { 1 ≤ cap }
    ensures { IfOk result (λ e. tree_of e ≡ names_slot {P = P} number cap) }
{
    let here = constant(4, u64::from(number));
    let is_map = binary(alloc, Op::Equal, port(HOST_MAP), here)?;
    let last = constant(16, u64::from(cap - 1));
    let is_slot = binary(alloc, Op::LessEqual, port(HOST_INDEX), last)?;
    binary(alloc, Op::And, is_map, is_slot)
}

/// Whether the host names a word of an array.
pub fn has_word<P: Part>(
    alloc: Global,
    number: u8,
    decl: &MapDecl,
) -> Result<Expr<Name<P>>, AllocError>
    requires cap { 1 ≤ decl.now.cap }
    requires value { decl.now.value ≤ 64 }
    ensures { IfOk result (λ e. tree_of e ≡ has_word {P = P} number decl.now) }
{
    let slot = names_slot(alloc, number, decl.cap)?;
    let count = constant(4, u64::from(word_count(decl.value)));
    let word = binary(alloc, Op::Less, port(HOST_WORD), count)?;
    binary(alloc, Op::And, slot, word)
}

/// The wire that shows the word that the host names, of 64 bits, where the part is that of an array.
pub fn value_name<P: Part>(part: P) -> Name<P>
    ensures { result ≡ value_name part }
{
    Name::Wire(part, 3)
}

/// The slot of the operation where one commits, else the host's index.
pub fn chosen_index<P: Part>(
    alloc: Global,
    bits: u8,
    nets: MapNets<Name<P>>,
) -> Result<Expr<Name<P>>, AllocError>
    requires { 1 ≤ bits }
    ensures { IfOk result (λ e. tree_of e ≡ chosen_index bits nets) }
{
    conditional(
        alloc,
        Expr::Read(nets.commits),
        Expr::Read(nets.slot),
        host_index(bits),
    )
}

// Whether the host names a slot, the index, whether the host writes, and what it reads.
fn wires<P: Part>(
    alloc: Global,
    part: P,
    number: u8,
    decl: &MapDecl,
    bits: u8,
    nets: MapNets<Name<P>>,
) -> Result<Vec<BlockWire<Name<P>>>, AllocError>
    requires cap { 1 ≤ decl.now.cap }
    requires value { decl.now.value ≤ 64 }
    requires some { 1 ≤ bits }
    ensures { IfOk result (λ r. map block_wire_of r.items ≡ array_wires part number decl.now bits nets) }
{
    let slot = names_slot(alloc, number, decl.cap)?;
    let index = chosen_index(alloc, bits, nets)?;
    let gate = binary(alloc, Op::And, Expr::Read(nets.writes), net(part, 0))?;
    let word = words_read(alloc, part, bits, 0, decl.value, constant(64, 0))?;
    let value = conditional(alloc, net(part, 0), word, constant(64, 0))?;
    let mut all = Vec::new(alloc);
    all.push(wire(1, slot))?;
    all.push(wire(bits, index))?;
    all.push(wire(1, gate))?;
    all.push(wire(64, value))?;
    Ok(all)
}

// The statement of its always block.
fn statement<P: Part>(
    alloc: Global,
    part: P,
    decl: &MapDecl,
    nets: MapNets<Name<P>>,
    words: &[WordNets<Name<P>>],
) -> Result<Stmt<Name<P>>, AllocError>
    requires value { decl.now.value ≤ 64 }
    requires count { length words.now ≡ word_count decl.now.value }
    ensures { IfOk result (λ s. statement_of s ≡ array_statement part decl.now nets words.now) }
{
    let mut all = Vec::new(alloc);
    let gate = Name::Wire(part, 2);
    let index = Name::Wire(part, 1);
    add_stores(
        alloc,
        &mut all,
        nets.commits,
        gate,
        index,
        0,
        decl.value,
        words,
    )?;
    let whole = block(alloc, statements(alloc, all)?)?;
    Ok(whole)
}

/// The block of an array, whose slots' numbers have so many bits, as the map of this number.
///
/// Its memories hold the words of the values, by slot. In a clock an operation sets words of a slot, or the host writes the word
/// that it names, or nothing changes. A wire shows the word that the host names, and 0 where there is none.
pub fn array<P: Part>(
    alloc: Global,
    part: P,
    number: u8,
    decl: &MapDecl,
    bits: u8,
    nets: MapNets<Name<P>>,
    words: &[WordNets<Name<P>>],
) -> Result<Block<Name<P>>, AllocError>
    requires number { number < 16 }
    requires kind { decl.now.kind ≡ Array }
    requires limits { IsWithinLimits decl.now }
    requires some { 1 ≤ bits }
    requires most { bits ≤ 16 }
    requires room { decl.now.cap ≤ 2 ^ bits }
    requires count { length words.now ≡ word_count decl.now.value }
    ensures { IfOk result (λ b. IsArray part number decl.now bits nets words.now (block_of b)) }
{
    let mut memories = Vec::new(alloc);
    add_memories(&mut memories, bits, decl.value)?;
    let wires = wires(alloc, part, number, decl, bits, nets)?;
    let statement = statement(alloc, part, decl, nets, words)?;
    Ok(Block {
        registers: Vec::new(alloc),
        memories,
        wires,
        statement,
    })
}
