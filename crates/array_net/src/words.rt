//! Byte strings in memories: a memory for each word of eight bytes, and in it a place for each slot of a table.

ghost use Rattle.std.specs.Prelude.{◌≡◌, ◌+◌, ◌≤◌, ◌<◌, ◌++◌, IfOk, OnOk, map, length};
ghost use Rattle.net_core.specs.View.{tree_of, statement_of};
ghost use Rattle.hazard_core.specs.Commits.{word_count};
ghost use Rattle.frame_net.specs.Stores.{widths_memory, store_statement, store_statements};
ghost use Rattle.array_net.specs.Words.{word_width};
ghost use Rattle.array_net.specs.WordTrees.{host_index, host_data, is_word, filled, word_shown, word_read, words_read, word_memories, word_store, word_stores};

use block_core::block::BlockMemory;
use block_core::name::{Name, Part};
use frame_net::nets::{beside, held, port};
use net_core::build::{binary, conditional, constant, when};
use net_core::ports::{HOST_DATA, HOST_INDEX, HOST_WORD};
use net_core::tree::{Expr, Op, Stmt, Word};
use std::alloc::{AllocError, Global};

/// The nets that ask for a word of a slot: whether an operation sets it, and what it becomes.
#[derive(Clone, Copy)]
pub struct WordNets<N> {
    pub sets: N,
    pub word: N,
}

/// How many words of eight bytes so many bytes take.
pub fn word_count(bytes: u32) -> u32
    requires { bytes ≤ 64 }
    ensures count { result ≡ word_count bytes }
    ensures few { result ≤ 8 }
{
    (bytes + 7) / 8
}

/// How many bits a word has of so many bytes: 64, or fewer for the last.
pub fn word_width(bytes: u32, j: u32) -> u8
    requires most { bytes ≤ 64 }
    requires there { j < word_count bytes }
    ensures width { result ≡ word_width bytes j }
    ensures some { 8 ≤ result }
    ensures whole { result ≤ 64 }
{
    (8 * (bytes - 8 * j).min(8)) as u8
}

/// The host's index, of so many bits.
pub fn host_index<P: Part>(bits: u8) -> Expr<Name<P>>
    requires { 1 ≤ bits }
    ensures { tree_of result ≡ host_index {P = P} bits }
{
    Expr::PartSelect(Name::Port(HOST_INDEX), bits - 1, 0)
}

/// The low bits of the number that the host writes.
pub fn host_data<P: Part>(width: u8) -> Expr<Name<P>>
    requires { 1 ≤ width }
    ensures { tree_of result ≡ host_data {P = P} width }
{
    Expr::PartSelect(Name::Port(HOST_DATA), width - 1, 0)
}

/// Whether the host names this word of a slot.
pub fn is_word<P: Part>(alloc: Global, number: u32) -> Result<Expr<Name<P>>, AllocError>
    ensures { IfOk result (λ e. tree_of e ≡ is_word {P = P} number) }
{
    let number = constant(4, u64::from(number));
    binary(alloc, Op::Equal, port(HOST_WORD), number)
}

// A number of so many bits as one of 64.
fn filled<P: Part>(alloc: Global, width: u8, e: Expr<Name<P>>) -> Result<Expr<Name<P>>, AllocError>
    requires { width ≤ 64 }
    ensures { IfOk result (λ r. tree_of r ≡ filled width (tree_of e)) }
{
    if width == 64 {
        return Ok(e);
    }
    beside(alloc, constant(64 - width, 0), e)
}

/// A word at an index as a number of 64 bits, where a memory has the first words of byte strings of so many bytes.
pub fn word_shown<P: Part>(
    alloc: Global,
    part: P,
    first: u32,
    bytes: u32,
    j: u32,
    index: Expr<Name<P>>,
) -> Result<Expr<Name<P>>, AllocError>
    requires most { bytes ≤ 64 }
    requires there { j < word_count bytes }
    requires few { first ≤ 15 }
    ensures { IfOk result (λ e. tree_of e ≡ word_shown part first bytes j (tree_of index)) }
{
    let there = held(alloc, part, first + j, index)?;
    filled(alloc, word_width(bytes, j), there)
}

// The word where the host names it, else what the others show.
fn word_read<P: Part>(
    alloc: Global,
    part: P,
    bits: u8,
    first: u32,
    bytes: u32,
    j: u32,
    rest: Expr<Name<P>>,
) -> Result<Expr<Name<P>>, AllocError>
    requires some { 1 ≤ bits }
    requires most { bytes ≤ 64 }
    requires there { j < word_count bytes }
    requires few { first ≤ 15 }
    ensures { IfOk result (λ e. tree_of e ≡ word_read part bits first bytes j (tree_of rest)) }
{
    let here = is_word(alloc, first + j)?;
    let there = word_shown(alloc, part, first, bytes, j, host_index(bits))?;
    conditional(alloc, here, there, rest)
}

/// The word that the host names, of the words from a memory on, or else what is given. The host's number of a word is that of
/// its memory.
pub fn words_read<P: Part>(
    alloc: Global,
    part: P,
    bits: u8,
    first: u32,
    bytes: u32,
    rest: Expr<Name<P>>,
) -> Result<Expr<Name<P>>, AllocError>
    requires some { 1 ≤ bits }
    requires most { bytes ≤ 64 }
    requires few { first ≤ 15 }
    ensures { IfOk result (λ e. tree_of e ≡ words_read part bits first bytes 0 (word_count bytes) (tree_of rest)) }
{
    let count = word_count(bytes);
    let mut tree = rest;
    for k in 0..count {
        tree = word_read(alloc, part, bits, first, bytes, count - 1 - k, tree)?;
    }
    Ok(tree)
}

fn word_memory(bits: u8, width: u8) -> BlockMemory
    ensures { result ≡ widths_memory (bits, width) }
{
    BlockMemory {
        index: bits,
        first: Word { width, value: 0 },
    }
}

/// Adds a memory for each word, 0 at first, with indexes of so many bits.
pub fn add_memories(all: &mut Vec<BlockMemory>, bits: u8, bytes: u32) -> Result<(), AllocError>
    requires { bytes ≤ 64 }
    ensures { OnOk result (all.new.items ≡ all.old.items ++ map widths_memory (word_memories bits bytes)) }
{
    let count = word_count(bytes);
    for j in 0..count {
        all.push(word_memory(bits, word_width(bytes, j)))?;
    }
    Ok(())
}

// A word is stored where an operation sets it, or where the host writes it.
fn word_statement<P: Part>(
    alloc: Global,
    commits: Name<P>,
    gate: Name<P>,
    index: Name<P>,
    first: u32,
    bytes: u32,
    j: u32,
    nets: WordNets<Name<P>>,
) -> Result<Stmt<Name<P>>, AllocError>
    requires most { bytes ≤ 64 }
    requires there { j < word_count bytes }
    requires few { first ≤ 15 }
    ensures { IfOk result (λ s. statement_of s ≡ store_statement (first + j) (word_store commits gate index first bytes j nets)) }
{
    let asked = binary(alloc, Op::And, Expr::Read(commits), Expr::Read(nets.sets))?;
    let named = is_word(alloc, first + j)?;
    let written = binary(alloc, Op::And, Expr::Read(gate), named)?;
    let either = binary(alloc, Op::Or, asked, written)?;
    let number = host_data(word_width(bytes, j));
    let value = conditional(alloc, Expr::Read(commits), Expr::Read(nets.word), number)?;
    when(
        alloc,
        either,
        Stmt::Store(first + j, Expr::Read(index), value),
    )
}

/// Adds the statements that store words, the first in a memory of this number, at an index.
///
/// Where an operation commits, it sets the words that it asks for; where the gate is 1, the host's number becomes the word that
/// the host names. Both are never 1.
pub fn add_stores<P: Part>(
    alloc: Global,
    all: &mut Vec<Stmt<Name<P>>>,
    commits: Name<P>,
    gate: Name<P>,
    index: Name<P>,
    first: u32,
    bytes: u32,
    words: &[WordNets<Name<P>>],
) -> Result<(), AllocError>
    requires most { bytes ≤ 64 }
    requires count { length words.now ≡ word_count bytes }
    requires few { first ≤ 15 }
    ensures { OnOk result (map statement_of all.new.items ≡ map statement_of all.old.items ++ store_statements first (word_stores commits gate index first bytes 0 words.now)) }
{
    let mut j = 0;
    for nets in words {
        all.push(word_statement(alloc, commits, gate, index, first, bytes, j, *nets)?)?;
        j += 1;
    }
    Ok(())
}
