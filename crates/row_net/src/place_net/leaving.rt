//! The block that keeps the answers of packets that leave the pipeline.

ghost use Rattle.std.specs.Prelude.{ℕ, ◌≡◌, ◌≤◌, List, All, IfOk, length, map as map_list};
ghost use Rattle.std.specs.List.{AllZip};
ghost use Rattle.net_core.specs.View.{tree_of, statement_of};
ghost use Rattle.block_core.specs.View.{block_of};
ghost use Rattle.cell_nets.specs.Operands.{IsOperand, IsAvailable};
ghost use Rattle.frame_net.specs.Answers.{answer_widths};
ghost use Rattle.frame_net.specs.Stores.{widths_memory, store_statement};
ghost use Rattle.row_net.specs.PlaceNet.Exit.{byte_operand, output_operands, IsExit};
ghost use Rattle.row_net.specs.PlaceNet.ExitNets.{IsFound, IsByte, IsFrameWord, AreValues, exit_store, exit_statement};

use crate::place_net::outputs::{AnswerByte, Outputs};
use block_core::block::{Block, BlockMemory};
use block_core::name::{Name, Part};
use cell_nets::operand::Operand;
use cell_nets::slice::slice;
use net_core::build::{block, then, when};
use net_core::tree::{Expr, Parts, Stmt, Stmts, Word};
use std::alloc::{AllocError, Global};

// What stands for a byte of the frame: 0 where nothing does.
fn found<N: Copy>(bytes: &[AnswerByte<N>], at: u32) -> Operand<N>
    ensures { IsFound bytes.now at result }
{
    for byte in bytes {
        if u32::from(byte.at) == at {
            return byte.operand;
        }
    }
    Operand::Known(0)
}

// Eight bits for a byte of the frame.
fn byte<N: Copy>(alloc: Global, bytes: &[AnswerByte<N>], at: u32) -> Result<Expr<N>, AllocError>
    requires { All (λ x. IsOperand (byte_operand x)) bytes.now }
    ensures { (ins : List (Operand N)) → All (λ x. IsAvailable ins (byte_operand x)) bytes.now → IfOk result (λ e. IsByte ins bytes.now at (tree_of e)) }
{
    let operand = found(bytes, at);
    let bits = slice(alloc, operand, 0, 8)?;
    Ok(bits)
}

// The eight bytes of a word of the frame above one another, the first the lowest.
fn word<N: Copy>(alloc: Global, bytes: &[AnswerByte<N>], number: u8) -> Result<Expr<N>, AllocError>
    requires { All (λ x. IsOperand (byte_operand x)) bytes.now }
    ensures { (ins : List (Operand N)) → All (λ x. IsAvailable ins (byte_operand x)) bytes.now → IfOk result (λ e. IsFrameWord ins bytes.now number (tree_of e)) }
{
    let first = 8 * u32::from(number);
    let lowest = byte(alloc, bytes, first)?;
    let mut parts = Parts::Last(lowest);
    for k in 1..8 {
        let higher = byte(alloc, bytes, first + k)?;
        parts = Parts::More(higher, Box::new(alloc, parts)?);
    }
    Ok(Expr::Concatenation(Box::new(alloc, parts)?))
}

// The words of the frame that have bytes that may change.
fn word_values<N: Copy>(
    alloc: Global,
    words: &[u8],
    bytes: &[AnswerByte<N>],
) -> Result<Vec<Expr<N>>, AllocError>
    requires { All (λ x. IsOperand (byte_operand x)) bytes.now }
    ensures { (ins : List (Operand N)) → All (λ x. IsAvailable ins (byte_operand x)) bytes.now → IfOk result (λ r. AllZip (IsFrameWord ins bytes.now) words.now (map_list tree_of r.items)) }
{
    let mut all = Vec::new(alloc);
    for number in words {
        all.push(word(alloc, bytes, *number)?)?;
    }
    Ok(all)
}

// The verdict, the target, and the words.
fn values<N: Copy>(
    alloc: Global,
    words: &[u8],
    outputs: &Outputs<N>,
) -> Result<Vec<Expr<N>>, AllocError>
    requires { All IsOperand (output_operands outputs.now) }
    ensures { IfOk result (λ r. AreValues outputs.now words.now (map_list tree_of r.items)) }
{
    let mut more = word_values(alloc, words, &outputs.bytes)?;
    let verdict = slice(alloc, outputs.verdict, 0, 32)?;
    let target = slice(alloc, outputs.target, 0, 32)?;
    let mut all = Vec::new(alloc);
    all.push(verdict)?;
    all.push(target)?;
    all.append(&mut more)?;
    Ok(all)
}

// Where a packet leaves, a memory takes a value in its slot.
fn store<N: Copy>(
    alloc: Global,
    memory: u32,
    exits: N,
    slot: N,
    value: Expr<N>,
) -> Result<Stmt<N>, AllocError>
    ensures { IfOk result (λ s. statement_of s ≡ store_statement memory (exit_store exits slot (tree_of value))) }
{
    let stored = Stmt::Store(memory, Expr::Read(slot), value);
    when(alloc, Expr::Read(exits), stored)
}

// Each memory takes its value.
fn statement<N: Copy>(
    alloc: Global,
    exits: N,
    slot: N,
    values: Vec<Expr<N>>,
) -> Result<Stmt<N>, AllocError>
    requires { length values.items ≤ 257 }
    ensures { IfOk result (λ s. statement_of s ≡ exit_statement exits slot (map_list tree_of values.items)) }
{
    let mut left = values;
    let mut list = Stmts::End;
    while let Some(value) = left.pop() {
        let memory = left.len() as u32;
        let first = store(alloc, memory, exits, slot, value)?;
        list = then(alloc, first, list)?;
    }
    block(alloc, list)
}

// A memory of words of a width, that are 0 at first.
fn memory(index: u8, width: u8) -> BlockMemory
    ensures { result ≡ widths_memory (index, width) }
{
    BlockMemory {
        index,
        first: Word { width, value: 0 },
    }
}

// Of the verdicts, the targets, and each of the words.
fn memories(alloc: Global, bits: u8, words: &[u8]) -> Result<Vec<BlockMemory>, AllocError>
    ensures { IfOk result (λ r. r.items ≡ map_list widths_memory (answer_widths bits words.now)) }
{
    let mut all = Vec::new(alloc);
    all.push(memory(bits, 32))?;
    all.push(memory(bits, 32))?;
    for _number in words {
        all.push(memory(bits, 64))?;
    }
    Ok(all)
}

/// The block that keeps the answers of packets that leave the pipeline, under slots whose numbers have so many bits.
///
/// It reads of other parts whether a packet leaves, its slot, and what stands for its answer. Its memories hold, by slot: 0 the verdict
/// and 1 the target, 32 bits each, and from 2 on these words of the frame, 64 bits each, in which those bytes count that may change.
pub fn exit<P: Part>(
    alloc: Global,
    bits: u8,
    words: &[u8],
    exits: Name<P>,
    slot: Name<P>,
    outputs: &Outputs<Name<P>>,
) -> Result<Block<Name<P>>, AllocError>
    requires some { 1 ≤ bits }
    requires most { bits ≤ 16 }
    requires few { length words.now ≤ 255 }
    requires operands { All IsOperand (output_operands outputs.now) }
    ensures { IfOk result (λ b. IsExit bits words.now exits slot outputs.now (block_of b)) }
{
    let memories = memories(alloc, bits, words)?;
    let values = values(alloc, words, outputs)?;
    let statement = statement(alloc, exits, slot, values)?;
    Ok(Block {
        registers: Vec::new(alloc),
        memories,
        wires: Vec::new(alloc),
        statement,
    })
}
