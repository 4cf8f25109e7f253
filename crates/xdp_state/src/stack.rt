// The stack.

ghost use Rattle.std.specs.Prelude.{◌≡◌, ◌+◌, ◌%◌, ◌<◌, ◌≤◌, ◌+ℤ◌, length, replicate, IfSome};
ghost use Rattle.xdp_machine.specs.Values as seen;
ghost use Rattle.std.specs.Option.{option_map};
ghost use Rattle.xdp_machine.specs.Memory.{bytes_in, in_stack, from_slot, from_stack, to_slot, to_stack, underlying};
ghost use Rattle.xdp_machine.specs.Helpers.{stack_byte, stack_bytes};
ghost use Rattle.xdp_state.specs.Views.{value_of};
ghost use Rattle.xdp_state.specs.Cases.{Makes, Fills};

use crate::memory::{aligned, bytes_in, bytes_of, number_at, patched_number};
use crate::pointers::number_in;
use crate::value::Value;
use std::marker::Model;
use xdp_machine::bpf_isa::Size;

/// The bytes of the stack.
pub const STACK_BYTES: usize = 512;

/// 64 slots of eight bytes, or of one pointer.
#[derive(Drop)]
pub struct Stack {
    slots: [Value; 64],
}

impl Model for Stack {
    ghost use Rattle.std.specs.Prelude.{List, map};
    ghost use Rattle.xdp_machine.specs.Values as seen;
    ghost use Rattle.xdp_state.specs.Views.{value_of};

    ghost Value = { List seen.Value };

    ghost view = { λ s. map value_of s.slots };
}

// Where an access begins, from the lowest byte of the stack: it lies in one slot.
#[tactic(auto, using(xdp_machine::proofs::SizeLaws::part_fits))]
fn in_stack(o: i64, offset: i16, size: Size) -> Option<usize>
    ensures value { result ≡ in_stack (o +ℤ offset) (bytes_in size) }
    ensures inside { IfSome result (λ a. a < 512) }
    ensures part { IfSome result (λ a. a % 8 + bytes_in size ≤ 8) }
{
    let at = i128::from(o) + i128::from(offset) + STACK_BYTES as i128;
    aligned(at, bytes_in(size), STACK_BYTES)
}

// What a slot gives: of a pointer the whole, of a number any part.
fn from_slot(size: Size, at: usize, slot: &Value) -> Option<Value>
    requires { at + bytes_in size ≤ 8 }
    ensures { option_map value_of result ≡ from_slot size at (value_of slot.now) }
{
    match (size, slot) {
        (Size::Dw, _) => Some(*slot),
        (_, Value::Number(n)) => Some(Value::Number(number_at(&bytes_of(*n), at, size))),
        _ => None,
    }
}

// The number that a part is stored into: zeros in place of a pointer.
fn underlying(slot: &Value) -> u64
    ensures { result ≡ underlying (value_of slot.now) }
{
    number_in(slot).unwrap_or(0)
}

// A slot after a store.
fn to_slot(size: Size, at: usize, slot: &Value, value: &Value) -> Option<Value>
    requires { at + bytes_in size ≤ 8 }
    ensures { option_map value_of result ≡ to_slot size at (value_of slot.now) (value_of value.now) }
{
    match (size, value) {
        (Size::Dw, Value::Unset) => None,
        (Size::Dw, _) => Some(*value),
        (_, Value::Number(n)) => {
            let number = patched_number(underlying(slot), at, size, *n);
            Some(Value::Number(number))
        }
        _ => None,
    }
}

impl Stack {
    /// All slots hold nothing.
    pub fn new() -> Stack
        ensures { result ≡ replicate 64 seen.Unset }
    {
        Stack {
            slots: [Value::Unset; 64],
        }
    }

    /// Makes all slots zeros.
    pub fn clear(&mut self)
        ensures { self.new ≡ replicate 64 (seen.Number 0) }
    {
        self.slots = [Value::Number(0); 64];
    }

    /// A load at an offset from a place, which counts from the end.
    pub fn load(&self, o: i64, offset: i16, size: Size) -> Option<Value>
        ensures { option_map value_of result ≡ from_stack self.now (o +ℤ offset) size }
    {
        let at = in_stack(o, offset, size)?;
        from_slot(size, at % 8, &self.slots[at / 8])
    }

    /// A store likewise.
    pub fn store(&mut self, o: i64, offset: i16, size: Size, value: &Value) -> bool
        ensures { Makes result (to_stack self.old (o +ℤ offset) size (value_of value.now)) self.old self.new }
    {
        let Some(at) = in_stack(o, offset, size) else {
            return false;
        };
        let Some(slot) = to_slot(size, at % 8, &self.slots[at / 8], value) else {
            return false;
        };
        self.slots[at / 8] = slot;
        true
    }

    /// A byte, from the lowest one: a slot with a pointer has none.
    fn byte(&self, at: usize) -> Option<u8>
        requires { at < 512 }
        ensures { result ≡ stack_byte self.now at }
    {
        let n = number_in(&self.slots[at / 8])?;
        Some(bytes_of(n)[at % 8])
    }

    /// Fills a buffer with the bytes from a place on.
    pub fn fill(&self, at: usize, into: &mut [u8]) -> bool
        requires { at + length into.old ≤ 512 }
        ensures { Fills result (stack_bytes self.now at (length into.old)) into.new }
    {
        for i in 0..into.len() {
            let Some(byte) = self.byte(at + i) else {
                return false;
            };
            into[i] = byte;
        }
        true
    }
}
