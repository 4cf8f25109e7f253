//! What a store and an atomic change make of a word.

ghost use Rattle.std.specs.Prelude.{ℕ, List, [], ◌∷◌, ◌≡◌, ◌+◌, ◌*◌, ◌%◌, ◌/◌, ◌^◌, ◌<◌, ◌≤◌, ◌==◌, if◌then◌else◌, IfOk};
ghost use Rattle.byteorder.specs.Endian.{little_bytes};
ghost use Rattle.hazard_core.specs.xdp_maps.Calls.{patched, with_change, change_bytes, change_result};
ghost use Rattle.hazard_core.specs.xdp_maps.Contents.{IsBytes};
ghost use Rattle.hazard_core.specs.xdp_machine.Memory.{bytes_in};
ghost use Rattle.hazard_core.specs.cell_core.Sites.{change_of};
ghost use Rattle.hazard_core.specs.Commits.{word_at};
ghost use Rattle.cell_nets.specs.Operands.{IsOperand, number_in};
ghost use Rattle.cell_nets.specs.Wires.{wires_of, always, HasBits, Gives};
ghost use Rattle.overlay_net.specs.ValueNet.Words.{change_bits};

use crate::value_net::operating::{choose, pair};
use crate::value_net::placing::with_bits;
use block_core::block::BlockWire;
use block_core::name::Name;
use cell_nets::cell_core::operator::Operator;
use cell_nets::cell_core::site::Atomic;
use cell_nets::cell_core::xdp_state::bpf_isa::Size;
use cell_nets::cell_core::xdp_state::xdp_maps::change::ChangeKind;
use cell_nets::operand::Operand;
use cell_nets::wires::cut;
use std::alloc::{AllocError, Global};

/// The bit of a word where the byte at a place begins.
pub(crate) fn first_bit(at: u32) -> u8
    ensures { result ≡ 8 * (at % 8) }
{
    (at % 8) as u8 * 8
}

/// A word of a value in which so many bytes of a number are written at a place.
pub(crate) fn placed_word<P: Copy>(
    alloc: Global,
    wires: &mut Vec<BlockWire<Name<P>>>,
    part: P,
    old: Operand<Name<P>>,
    w: u32,
    at: u32,
    bytes: u8,
    number: Operand<Name<P>>,
) -> Result<Operand<Name<P>>, AllocError>
    requires old { IsOperand old }
    requires word { HasBits 64 old }
    requires number { IsOperand number }
    requires some { 0 < bytes }
    requires one { at % 8 + bytes ≤ 8 }
    ensures { (n : ℕ) (value : List ℕ) → IsBytes n value → at + bytes ≤ n → IfOk result (Gives part (wires_of wires.old.items) (wires_of wires.new.items) (old ∷ number ∷ [])
        (λ v. number_in v old ≡ word_at value w) (λ v. word_at (patched value at (little_bytes bytes (number_in v number))) w) 64) }
{
    if at / 8 != w {
        return Ok(old);
    }
    let from = first_bit(at);
    let out = with_bits(alloc, wires, part, old, from, bytes * 8, number)?;
    Ok(out)
}

/// How many bytes an access has.
pub(crate) fn bytes_of(size: Size) -> u8
    ensures value { result ≡ bytes_in size }
    ensures some { 0 < result }
    ensures most { result ≤ 8 }
{
    match size {
        Size::B => 1,
        Size::H => 2,
        Size::W => 4,
        Size::Dw => 8,
    }
}

/// How many bytes an atomic change has.
pub(crate) fn change_bytes(wide: bool) -> u8
    ensures value { result ≡ change_bytes wide }
    ensures some { 0 < result }
    ensures most { result ≤ 8 }
{
    if wide { 8 } else { 4 }
}

/// A word of a value after a store of a number.
pub fn patched_word<P: Copy>(
    alloc: Global,
    wires: &mut Vec<BlockWire<Name<P>>>,
    part: P,
    old: Operand<Name<P>>,
    w: u32,
    at: u32,
    size: Size,
    number: Operand<Name<P>>,
) -> Result<Operand<Name<P>>, AllocError>
    requires old { IsOperand old }
    requires word { HasBits 64 old }
    requires number { IsOperand number }
    requires aligned { at % bytes_in size ≡ 0 }
    ensures { (n : ℕ) (value : List ℕ) → IsBytes n value → at + bytes_in size ≤ n → IfOk result (Gives part (wires_of wires.old.items) (wires_of wires.new.items) (old ∷ number ∷ [])
        (λ v. number_in v old ≡ word_at value w) (λ v. word_at (patched value at (little_bytes (bytes_in size) (number_in v number))) w) 64) }
{
    let out = placed_word(alloc, wires, part, old, w, at, bytes_of(size), number)?;
    Ok(out)
}

/// The source, where what is compared is the old number, else that.
fn exchanged<P: Copy>(
    alloc: Global,
    wires: &mut Vec<BlockWire<Name<P>>>,
    part: P,
    old: Operand<Name<P>>,
    source: Operand<Name<P>>,
    compare: Operand<Name<P>>,
    width: u8,
) -> Result<Operand<Name<P>>, AllocError>
    requires old { IsOperand old }
    requires source { IsOperand source }
    requires compare { IsOperand compare }
    requires some { 0 < width }
    requires most { width ≤ 64 }
    ensures { IfOk result (Gives part (wires_of wires.old.items) (wires_of wires.new.items) (old ∷ source ∷ compare ∷ []) (λ v. number_in v old < 2 ^ width)
        (λ v. if number_in v old == number_in v compare % 2 ^ width then number_in v source % 2 ^ width else number_in v old) width) }
{
    let expected = cut(alloc, wires, part, compare, 0, width)?;
    let same = pair(alloc, wires, part, Operator::Equal, old, expected, 1)?;
    let out = choose(alloc, wires, part, same, source, old, 0, width)?;
    Ok(out)
}

/// The number that an atomic change leaves.
fn change_result<P: Copy>(
    alloc: Global,
    wires: &mut Vec<BlockWire<Name<P>>>,
    part: P,
    atomic: Atomic,
    old: Operand<Name<P>>,
    source: Operand<Name<P>>,
    compare: Operand<Name<P>>,
) -> Result<Operand<Name<P>>, AllocError>
    requires old { IsOperand old }
    requires source { IsOperand source }
    requires compare { IsOperand compare }
    ensures { IfOk result (Gives part (wires_of wires.old.items) (wires_of wires.new.items) (old ∷ source ∷ compare ∷ []) (λ v. number_in v old < 2 ^ change_bits atomic.wide)
        (λ v. change_result (change_of atomic (number_in v source) (number_in v compare)) (number_in v old)) (change_bits atomic.wide)) }
{
    let width = change_bytes(atomic.wide) * 8;
    match atomic.kind {
        ChangeKind::Add => {
            let out = pair(alloc, wires, part, Operator::Add, old, source, width)?;
            Ok(out)
        }
        ChangeKind::Or => {
            let out = pair(alloc, wires, part, Operator::Or, old, source, width)?;
            Ok(out)
        }
        ChangeKind::And => {
            let out = pair(alloc, wires, part, Operator::And, old, source, width)?;
            Ok(out)
        }
        ChangeKind::Xor => {
            let out = pair(alloc, wires, part, Operator::Xor, old, source, width)?;
            Ok(out)
        }
        ChangeKind::Xchg => {
            let out = cut(alloc, wires, part, source, 0, width)?;
            Ok(out)
        }
        ChangeKind::Cmpxchg => {
            let out = exchanged(alloc, wires, part, old, source, compare, width)?;
            Ok(out)
        }
    }
}

/// A word of a value after an atomic change. One of four bytes leaves the other half as it is.
pub fn changed_word<P: Copy>(
    alloc: Global,
    wires: &mut Vec<BlockWire<Name<P>>>,
    part: P,
    old: Operand<Name<P>>,
    w: u32,
    at: u32,
    atomic: Atomic,
    source: Operand<Name<P>>,
    compare: Operand<Name<P>>,
) -> Result<Operand<Name<P>>, AllocError>
    requires old { IsOperand old }
    requires word { HasBits 64 old }
    requires source { IsOperand source }
    requires compare { IsOperand compare }
    requires aligned { at % change_bytes atomic.wide ≡ 0 }
    ensures { (n : ℕ) (value : List ℕ) → IsBytes n value → at + change_bytes atomic.wide ≤ n → IfOk result (Gives part (wires_of wires.old.items) (wires_of wires.new.items) (old ∷ source ∷ compare ∷ [])
        (λ v. number_in v old ≡ word_at value w) (λ v. word_at (with_change (change_of atomic (number_in v source) (number_in v compare)) at value) w) 64) }
{
    if at / 8 != w {
        return Ok(old);
    }
    let bytes = change_bytes(atomic.wide);
    let from = first_bit(at);
    let number = cut(alloc, wires, part, old, from, bytes * 8)?;
    let new = change_result(alloc, wires, part, atomic, number, source, compare)?;
    let out = with_bits(alloc, wires, part, old, from, bytes * 8, new)?;
    Ok(out)
}
