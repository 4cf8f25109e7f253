//! What the block of a hash reads and writes beside the words of keys and values.

ghost use Rattle.std.specs.Prelude.{◌≡◌, ◌≤◌, IfOk};
ghost use Rattle.net_core.specs.View.{tree_of};
ghost use Rattle.hash_net.specs.HashNets.{value_first, is_value, has_word, idle_gate, value_gate, used_sets, used_bit, used_read, value_read, count_after};

use crate::block::HashNets;
use array_net::names_slot;
use array_net::words::{host_index, is_word, word_count, words_read};
use block_core::name::{Name, Part};
use cell_nets::cell_core::xdp_state::xdp_maps::decl::MapDecl;
use frame_net::nets::{beside, held, net, port, register};
use net_core::build::{binary, conditional, constant, unary};
use net_core::ports::{HOST_DATA, HOST_WORD};
use net_core::tree::{Expr, Op, UnaryOp};
use std::alloc::{AllocError, Global};

/// The number of the memory that has the first words of values.
pub fn value_first(decl: &MapDecl) -> u32
    requires { decl.now.key ≤ 64 }
    ensures first { result ≡ value_first decl.now }
    ensures few { result ≤ 9 }
{
    1 + word_count(decl.key)
}

// Whether the host names a word of a value, or none.
fn is_value<P: Part>(alloc: Global, decl: &MapDecl) -> Result<Expr<Name<P>>, AllocError>
    requires { decl.now.key ≤ 64 }
    ensures { IfOk result (λ e. tree_of e ≡ is_value {P = P} decl.now) }
{
    let first = constant(4, u64::from(value_first(decl)));
    binary(alloc, Op::LessEqual, first, port(HOST_WORD))
}

/// Whether the host names a word of a hash that it may write: while packets are inside a value of a used slot alone.
pub fn has_word<P: Part>(
    alloc: Global,
    part: P,
    number: u8,
    bits: u8,
    decl: &MapDecl,
    idle: Name<P>,
) -> Result<Expr<Name<P>>, AllocError>
    requires some { 1 ≤ bits }
    requires cap { 1 ≤ decl.now.cap }
    requires key { decl.now.key ≤ 64 }
    requires value { decl.now.value ≤ 64 }
    ensures { IfOk result (λ e. tree_of e ≡ has_word part number bits decl.now idle) }
{
    let slot = names_slot(alloc, number, decl.cap)?;
    let words = value_first(decl) + word_count(decl.value);
    let word = binary(
        alloc,
        Op::Less,
        port(HOST_WORD),
        constant(4, u64::from(words)),
    )?;
    let there = binary(alloc, Op::And, slot, word)?;
    let used = held(alloc, part, 0, host_index(bits))?;
    let value = is_value(alloc, decl)?;
    let of_used = binary(alloc, Op::And, value, used)?;
    let may = binary(alloc, Op::Or, Expr::Read(idle), of_used)?;
    binary(alloc, Op::And, there, may)
}

/// Whether the host writes what only an idle clock lets it.
pub(crate) fn idle_gate<P: Part>(
    alloc: Global,
    part: P,
    nets: HashNets<Name<P>>,
) -> Result<Expr<Name<P>>, AllocError>
    ensures { IfOk result (λ e. tree_of e ≡ idle_gate part nets) }
{
    let idle = binary(alloc, Op::And, net(part, 0), Expr::Read(nets.idle))?;
    binary(alloc, Op::And, Expr::Read(nets.map.writes), idle)
}

/// Whether the host writes values.
pub(crate) fn value_gate<P: Part>(
    alloc: Global,
    part: P,
    nets: HashNets<Name<P>>,
) -> Result<Expr<Name<P>>, AllocError>
    ensures { IfOk result (λ e. tree_of e ≡ value_gate part nets) }
{
    let used = binary(alloc, Op::Or, Expr::Read(nets.idle), net(part, 2))?;
    let named = binary(alloc, Op::And, net(part, 0), used)?;
    binary(alloc, Op::And, Expr::Read(nets.map.writes), named)
}

/// Whether the used bit is set: by an operation that puts an entry or takes one away, or by the host.
pub(crate) fn used_sets<P: Part>(
    alloc: Global,
    part: P,
    nets: HashNets<Name<P>>,
) -> Result<Expr<Name<P>>, AllocError>
    ensures { IfOk result (λ e. tree_of e ≡ used_sets part nets) }
{
    let either = binary(
        alloc,
        Op::Or,
        Expr::Read(nets.inserts),
        Expr::Read(nets.deletes),
    )?;
    let asked = binary(alloc, Op::And, Expr::Read(nets.map.commits), either)?;
    let named = is_word(alloc, 0)?;
    let written = binary(alloc, Op::And, net(part, 3), named)?;
    binary(alloc, Op::Or, asked, written)
}

/// What the used bit becomes.
pub(crate) fn used_bit<P: Part>(
    alloc: Global,
    nets: HashNets<Name<P>>,
) -> Result<Expr<Name<P>>, AllocError>
    ensures { IfOk result (λ e. tree_of e ≡ used_bit nets) }
{
    let some = unary(alloc, UnaryOp::ReduceOr, port(HOST_DATA))?;
    conditional(
        alloc,
        Expr::Read(nets.map.commits),
        Expr::Read(nets.inserts),
        some,
    )
}

// The used bit where the host names it, else what the others show.
fn used_read<P: Part>(
    alloc: Global,
    part: P,
    bits: u8,
    rest: Expr<Name<P>>,
) -> Result<Expr<Name<P>>, AllocError>
    requires { 1 ≤ bits }
    ensures { IfOk result (λ e. tree_of e ≡ used_read part bits (tree_of rest)) }
{
    let here = is_word(alloc, 0)?;
    let used = held(alloc, part, 0, host_index(bits))?;
    let wide = beside(alloc, constant(63, 0), used)?;
    conditional(alloc, here, wide, rest)
}

/// The word of a slot that the host names, or 0.
pub(crate) fn value_read<P: Part>(
    alloc: Global,
    part: P,
    bits: u8,
    decl: &MapDecl,
) -> Result<Expr<Name<P>>, AllocError>
    requires some { 1 ≤ bits }
    requires key { decl.now.key ≤ 64 }
    requires value { decl.now.value ≤ 64 }
    ensures { IfOk result (λ e. tree_of e ≡ value_read part bits decl.now) }
{
    let values = words_read(
        alloc,
        part,
        bits,
        value_first(decl),
        decl.value,
        constant(64, 0),
    )?;
    let keys = words_read(alloc, part, bits, 1, decl.key, values)?;
    used_read(alloc, part, bits, keys)
}

/// The number of used slots, with the bit that a slot gets in place of the one that it has.
pub(crate) fn count_after<P: Part>(
    alloc: Global,
    part: P,
    bits: u8,
) -> Result<Expr<Name<P>>, AllocError>
    ensures { IfOk result (λ e. tree_of e ≡ count_after part bits) }
{
    let becomes = beside(alloc, constant(bits, 0), net(part, 6))?;
    let more = binary(alloc, Op::Add, register(part, 0), becomes)?;
    let was = beside(alloc, constant(bits, 0), net(part, 2))?;
    binary(alloc, Op::Sub, more, was)
}
