//! Tests of slots, each of one bit.

ghost use Rattle.std.specs.Prelude.{ℕ, List, ◌≡◌, ◌++◌, ◌≤◌, All, length, IfOk, map};
ghost use Rattle.std.proofs.Common.{get_or};
ghost use Rattle.net_core.specs.View.{tree_of};
ghost use Rattle.overlay_net.specs.cell_core.Cells.{bit};
ghost use Rattle.overlay_net.specs.hazard_core.Commits.{word_count};
ghost use Rattle.cell_nets.specs.Operands.{IsOperand, IsAvailable, IsWide};
ghost use Rattle.cell_nets.specs.Parts.{IsPart};
ghost use Rattle.hash_net.specs.SlotNet.Choosing.{AreTests, same_bits, is_under, is_used};
ghost use Rattle.hash_net.specs.SlotNet.Slots.{slot_operands, slots_of, all_of, operands_of, IsSlot, slot_past};

use crate::slot_net::slots::SlotNets;
use array_net::words::{word_count, word_width};
use cell_nets::choosing::truth;
use cell_nets::operand::Operand;
use cell_nets::slice::slice;
use net_core::build::binary;
use net_core::tree::{Expr, Op};
use std::alloc::{AllocError, Global};

// Whether the low bits of two operands are the same.
fn word_test<N: Copy>(
    alloc: Global,
    a: Operand<N>,
    b: Operand<N>,
    width: u8,
) -> Result<Expr<N>, AllocError>
    requires left { IsOperand a }
    requires right { IsOperand b }
    requires width { IsWide width }
    ensures { (ins : List (Operand N)) → IsAvailable ins a → IsAvailable ins b → IfOk result (λ e. IsPart ins 3 1 (λ v. bit (same_bits v width a b)) (tree_of e)) }
{
    let left = slice(alloc, a, 0, width)?;
    let right = slice(alloc, b, 0, width)?;
    let e = binary(alloc, Op::Equal, left, right)?;
    Ok(e)
}

// Whether a slot is used under a key of so many bytes.
fn key_test<N: Copy>(
    alloc: Global,
    bytes: u32,
    slot: &SlotNets<N>,
    key: &[Operand<N>],
) -> Result<Expr<N>, AllocError>
    requires short { bytes ≤ 40 }
    requires slot { IsSlot bytes (slot_operands slot.now) }
    requires words { word_count bytes ≤ length key.now }
    requires key { All IsOperand key.now }
    ensures { (ins : List (Operand N)) → All (IsAvailable ins) (all_of (slot_operands slot.now)) → All (IsAvailable ins) key.now → IfOk result (λ e. IsPart ins 8 1 (λ v. bit (is_under v bytes key.now (slot_operands slot.now) (word_count bytes))) (tree_of e)) }
{
    let mut test = truth(alloc, slot.used)?;
    for w in 0..word_count(bytes) {
        let width = word_width(bytes, w);
        let same = word_test(alloc, slot.key[w as usize], key[w as usize], width)?;
        test = binary(alloc, Op::And, test, same)?;
    }
    Ok(test)
}

/// Whether each slot is used under a key of so many bytes.
pub(crate) fn key_tests<N: Copy>(
    alloc: Global,
    bytes: u32,
    slots: &[SlotNets<N>],
    key: &[Operand<N>],
) -> Result<Vec<Expr<N>>, AllocError>
    requires short { bytes ≤ 40 }
    requires slots { All (IsSlot bytes) (slots_of slots.now) }
    requires words { word_count bytes ≤ length key.now }
    requires key { All IsOperand key.now }
    ensures count { IfOk result (λ r. length r.items ≡ length slots.now) }
    ensures tests { IfOk result (λ r. AreTests (key.now ++ operands_of (slots_of slots.now)) (λ n v. is_under v bytes key.now (get_or (slots_of slots.now) n slot_past) (word_count bytes)) 0 (map tree_of r.items)) }
{
    let mut tests = Vec::new(alloc);
    for slot in slots {
        tests.push(key_test(alloc, bytes, slot, key)?)?;
    }
    Ok(tests)
}

/// Whether each slot is used.
pub(crate) fn used_tests<N: Copy>(
    alloc: Global,
    slots: &[SlotNets<N>],
) -> Result<Vec<Expr<N>>, AllocError>
    requires { All (λ n. IsOperand n.used) (slots_of slots.now) }
    ensures count { IfOk result (λ r. length r.items ≡ length slots.now) }
    ensures tests { IfOk result (λ r. AreTests (operands_of (slots_of slots.now)) (λ n v. is_used v (get_or (slots_of slots.now) n slot_past)) 0 (map tree_of r.items)) }
{
    let mut tests = Vec::new(alloc);
    for slot in slots {
        tests.push(truth(alloc, slot.used)?)?;
    }
    Ok(tests)
}
