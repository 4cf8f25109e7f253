//! The block that gathers frames from the beats that come.

ghost use Rattle.std.specs.Prelude.{◌≡◌, ℕ, ◌+◌, ◌≤◌, ◌∷◌, [], IfOk, map, length};
ghost use Rattle.std.specs.List.{AllByRecursion};
ghost use Rattle.net_core.specs.Nets.{TRead, SIf, SSet, SStore};
ghost use Rattle.net_core.specs.View.{tree_of, statement_of};
ghost use Rattle.net_core.specs.Value.{word};
ghost use Rattle.block_core.specs.View.{block_of, block_wire_of};
ghost use Rattle.frame_net.specs.Gather.{IsGather, IsKept, further_widths, memory_widths, kept_width};
ghost use Rattle.frame_net.specs.Stores.{widths_memory, store_statement, store_statements};
ghost use Rattle.frame_net.specs.Frames.{further};
ghost use Rattle.frame_net.specs.GatherNets.{beat_store, kept_store, further_store, gather_wires, gather_stores, gather_sets, gather_statement};

use crate::held::{Further, Kept};
use crate::nets::{
    POSITION_WIDTH, bank_bits, banks, in_bank, in_bits, masked, net, next_position, place, port,
    register, uncounted, wide, wire,
};
use block_core::block::{Block, BlockMemory, BlockWire};
use block_core::name::{Name, Part};
use net_core::build::{binary, block, constant, statements, unary, when};
use net_core::ports::{IN_BYTES, IN_DATA, IN_IFINDEX, IN_LAST, IN_TIME};
use net_core::tree::{Expr, Op, Stmt, UnaryOp, Word};
use std::alloc::{AllocError, Global};

// The bytes of the beat that count, as a word; whether a frame ends, and whether one begins; where the beat is stored.
fn wires<P: Part>(
    alloc: Global,
    part: P,
    bits: u8,
    over: Name<P>,
    slot: Name<P>,
) -> Result<Vec<BlockWire<Name<P>>>, AllocError>
    requires some { 1 ≤ bits }
    requires most { bits ≤ 9 }
    ensures { IfOk result (λ r. map block_wire_of r.items ≡ gather_wires part bits over slot) }
{
    let left = uncounted(alloc, port(IN_BYTES))?;
    let shift = in_bits(alloc, net(part, 0))?;
    let word = masked(alloc, port(IN_DATA), net(part, 1))?;
    let ends = binary(alloc, Op::And, Expr::Read(over), port(IN_LAST))?;
    let none = unary(alloc, UnaryOp::Not, register(part, 0))?;
    let begins = binary(alloc, Op::And, Expr::Read(over), none)?;
    let wide = wide(alloc, slot)?;
    let place = place(alloc, bits, Name::Wire(part, 5), register(part, 1))?;
    let mut all = Vec::new(alloc);
    all.push(wire(4, left))?;
    all.push(wire(7, shift))?;
    all.push(wire(64, word))?;
    all.push(wire(1, ends))?;
    all.push(wire(1, begins))?;
    all.push(wire(bits + 5, wide))?;
    all.push(wire(bank_bits(bits) + POSITION_WIDTH, place))?;
    Ok(all)
}

// A statement that stores a word in a memory where a condition holds.
fn store<P: Part>(
    alloc: Global,
    memory: u32,
    condition: Expr<Name<P>>,
    at: Expr<Name<P>>,
    value: Expr<Name<P>>,
) -> Result<Stmt<Name<P>>, AllocError>
    ensures { IfOk result (λ s. statement_of s ≡ SIf (tree_of condition) (SStore memory (tree_of at) (tree_of value))) }
{
    when(alloc, condition, Stmt::Store(memory, at, value))
}

// A beat is stored where its slot is one of the memory's.
fn beat_statement<P: Part>(
    alloc: Global,
    part: P,
    bits: u8,
    over: Name<P>,
    bank: u8,
    memory: u32,
) -> Result<Stmt<Name<P>>, AllocError>
    requires { bits ≤ 9 }
    ensures { IfOk result (λ s. statement_of s ≡ store_statement memory (beat_store part bits over bank)) }
{
    let here = in_bank(alloc, bits, Name::Wire(part, 5), bank)?;
    let comes = binary(alloc, Op::And, Expr::Read(over), here)?;
    store(alloc, memory, comes, net(part, 6), net(part, 2))
}

// What comes with the first beat is kept with it, and a word with the beat that has it.
fn kept_statement<P: Part>(
    alloc: Global,
    part: P,
    over: Name<P>,
    slot: Name<P>,
    kept: Kept,
    memory: u32,
) -> Result<Stmt<Name<P>>, AllocError>
    ensures { IfOk result (λ s. statement_of s ≡ store_statement memory (kept_store part over slot kept)) }
{
    match kept {
        Kept::Ifindex => store(
            alloc,
            memory,
            net(part, 4),
            Expr::Read(slot),
            port(IN_IFINDEX),
        ),
        Kept::Time => store(alloc, memory, net(part, 4), Expr::Read(slot), port(IN_TIME)),
        Kept::Word(j) => {
            let number = constant(POSITION_WIDTH, u64::from(j));
            let here = binary(alloc, Op::Equal, register(part, 1), number)?;
            let comes = binary(alloc, Op::And, Expr::Read(over), here)?;
            store(alloc, memory, comes, Expr::Read(slot), net(part, 2))
        }
    }
}

fn further_statement<P: Part>(
    alloc: Global,
    part: P,
    bits: u8,
    over: Name<P>,
    slot: Name<P>,
    further: Further,
    memory: u32,
) -> Result<Stmt<Name<P>>, AllocError>
    requires { bits ≤ 9 }
    ensures { IfOk result (λ s. statement_of s ≡ store_statement memory (further_store part bits over slot further)) }
{
    match further {
        Further::Kept(kept) => kept_statement(alloc, part, over, slot, kept, memory),
        Further::Bank(bank) => beat_statement(alloc, part, bits, over, bank, memory),
    }
}

// The registers that a beat sets.
fn sets<P: Part>(alloc: Global, part: P, over: Name<P>) -> Result<Vec<Stmt<Name<P>>>, AllocError>
    ensures { IfOk result (λ r. map statement_of r.items ≡ gather_sets part over []) }
{
    let more = unary(alloc, UnaryOp::Not, port(IN_LAST))?;
    let next = next_position(alloc, port(IN_LAST), register(part, 1))?;
    let mut all = Vec::new(alloc);
    all.push(when(alloc, Expr::Read(over), Stmt::Set(0, more))?)?;
    all.push(when(alloc, Expr::Read(over), Stmt::Set(1, next))?)?;
    Ok(all)
}

// The beat is stored, and with a last one its number and its bytes.
fn beat_stores<P: Part>(
    alloc: Global,
    part: P,
    bits: u8,
    over: Name<P>,
    slot: Name<P>,
) -> Result<Vec<Stmt<Name<P>>>, AllocError>
    requires { bits ≤ 9 }
    ensures { IfOk result (λ r. map statement_of r.items ≡ store_statements 0 (gather_stores part bits [] over slot)) }
{
    let beat = beat_statement(alloc, part, bits, over, 0, 0)?;
    let last = store(alloc, 1, net(part, 3), Expr::Read(slot), register(part, 1))?;
    let bytes = store(alloc, 2, net(part, 3), Expr::Read(slot), port(IN_BYTES))?;
    let mut all = Vec::new(alloc);
    all.push(beat)?;
    all.push(last)?;
    all.push(bytes)?;
    Ok(all)
}

// The statement of its always block.
fn statement<P: Part>(
    alloc: Global,
    part: P,
    bits: u8,
    further: &[Further],
    over: Name<P>,
    slot: Name<P>,
) -> Result<Stmt<Name<P>>, AllocError>
    requires most { bits ≤ 9 }
    requires few { length further.now ≤ 510 }
    ensures { IfOk result (λ s. statement_of s ≡ gather_statement part bits further.now over slot) }
{
    let mut all = sets(alloc, part, over)?;
    let mut stores = beat_stores(alloc, part, bits, over, slot)?;
    all.append(&mut stores)?;
    let mut memory = 3;
    for what in further {
        all.push(further_statement(alloc, part, bits, over, slot, *what, memory)?)?;
        memory += 1;
    }
    let whole = block(alloc, statements(alloc, all)?)?;
    Ok(whole)
}

// A memory of words of a width, that are 0 at first.
fn memory(index: u8, width: u8) -> BlockMemory
    ensures { result ≡ widths_memory (index, width) }
{
    BlockMemory {
        index,
        first: Word { width, value: 0 },
    }
}

// How many bits a word has of what is kept.
pub(crate) fn kept_width(kept: Kept) -> u8
    ensures { result ≡ kept_width kept }
{
    match kept {
        Kept::Ifindex => 32,
        Kept::Time | Kept::Word(_) => 64,
    }
}

// The memories after the first three: what else is kept, and the beats of further slots.
fn further(alloc: Global, bits: u8, kept: &[Kept]) -> Result<Vec<Further>, AllocError>
    requires { bits ≤ 9 }
    ensures { IfOk result (λ r. r.items ≡ further bits kept.now) }
{
    let mut all = Vec::new(alloc);
    for what in kept {
        all.push(Further::Kept(*what))?;
    }
    for bank in 1..banks(bits) {
        all.push(Further::Bank(bank))?;
    }
    Ok(all)
}

fn further_memory(bits: u8, further: Further) -> BlockMemory
    requires { bits ≤ 9 }
    ensures { result ≡ widths_memory (further_widths bits further) }
{
    match further {
        Further::Kept(kept) => memory(bits, kept_width(kept)),
        Further::Bank(_) => memory(bank_bits(bits) + POSITION_WIDTH, 64),
    }
}

// Of the beats, the number of the last and its bytes, and what else is kept.
#[tactic(auto, using(crate::proofs::LoopLaws::copied, crate::proofs::LoopLaws::copied_end))]
fn memories(alloc: Global, bits: u8, further: &[Further]) -> Result<Vec<BlockMemory>, AllocError>
    requires { bits ≤ 9 }
    ensures { IfOk result (λ r. r.items ≡ map widths_memory (memory_widths bits further.now)) }
{
    let mut all = Vec::new(alloc);
    all.push(memory(bank_bits(bits) + POSITION_WIDTH, 64))?;
    all.push(memory(bits, POSITION_WIDTH))?;
    all.push(memory(bits, 4))?;
    for what in further {
        all.push(further_memory(bits, *what))?;
    }
    Ok(all)
}

/// The block that gathers frames from the beats that come, under slots whose numbers have so many bits.
///
/// It reads of other parts whether a beat goes over, and the slot of the frame that comes, which stays until the frame is
/// whole. Its memories hold, by slot: 0 the beats, 64 bits each, with 0 in the bytes that do not count; 1 the number of the
/// last beat; 2 how many bytes that has; from 3 on what else is kept, in the order of the list; and after that the beats of
/// the slots from 32 on, each memory those of 32 slots.
pub fn gather<P: Part>(
    alloc: Global,
    part: P,
    bits: u8,
    kept: &[Kept],
    over: Name<P>,
    slot: Name<P>,
) -> Result<Block<Name<P>>, AllocError>
    requires some { 1 ≤ bits }
    requires most { bits ≤ 9 }
    requires few { length kept.now ≤ 255 }
    requires words { AllByRecursion IsKept kept.now }
    ensures { IfOk result (λ b. IsGather part bits kept.now over slot (block_of b)) }
{
    let one = Word { width: 1, value: 0 };
    let first = Word {
        width: POSITION_WIDTH,
        value: 0,
    };
    let mut registers = Vec::new(alloc);
    registers.push(one)?;
    registers.push(first)?;
    let further = further(alloc, bits, kept)?;
    let memories = memories(alloc, bits, &further)?;
    let wires = wires(alloc, part, bits, over, slot)?;
    let statement = statement(alloc, part, bits, &further, over, slot)?;
    Ok(Block {
        registers,
        memories,
        wires,
        statement,
    })
}
