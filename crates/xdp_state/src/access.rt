// Loads and stores of the machine.

ghost use Rattle.std.specs.Prelude.{◌≡◌, ◌≤◌};
ghost use Rattle.std.specs.Option.{option_map};
ghost use Rattle.xdp_machine.specs.State.{register};
ghost use Rattle.xdp_machine.specs.Memory.{bytes_in, loaded, from_context, loaded_plain, loaded_signed, stored};
ghost use Rattle.xdp_state.specs.Views.{value_of};
ghost use Rattle.xdp_state.specs.Cases.{Makes};
ghost use Rattle.xdp_state.specs.Machines.{machine_of};

use crate::arithmetic::extended;
use crate::entries::{from_entry, to_entry};
use crate::frames::{from_frame, to_frame};
use crate::memory::bytes_in;
use crate::pointers::number_in;
use crate::state::State;
use crate::value::Value;
use xdp_machine::bpf_isa::{Insn, Size, Width};
use xdp_machine::xdp_maps::state::Maps;

// What a load finds at an offset from a pointer.
fn loaded(
    state: &State,
    frame: &[u8],
    maps: &Maps,
    base: &Value,
    offset: i16,
    size: Size,
) -> Option<Value>
    ensures { option_map value_of result ≡ loaded (machine_of state.now frame.now maps.now) (value_of base.now) offset size }
{
    match base {
        Value::Packet(o) => from_frame(frame, *o, offset, size),
        Value::Stack(o) => state.stack.load(*o, offset, size),
        Value::Entry(q, o, key) => from_entry(maps, *q, key.bytes(), *o, offset, size),
        _ => None,
    }
}

// A field of the context: data, data_end, ingress_ifindex or rx_queue_index.
fn from_context(state: &State, frame: &[u8], maps: &Maps, offset: i16) -> Option<Value>
    ensures { option_map value_of result ≡ from_context (machine_of state.now frame.now maps.now) offset }
{
    match offset {
        0 => Some(Value::Packet(0)),
        4 => Some(Value::Packet(frame.len() as i64)),
        12 => Some(Value::Number(u64::from(state.ifindex))),
        16 => Some(Value::Number(0)),
        _ => None,
    }
}

/// MEM.
pub fn loaded_plain(
    state: &State,
    frame: &[u8],
    maps: &Maps,
    base: &Value,
    offset: i16,
    size: Size,
) -> Option<Value>
    ensures { option_map value_of result ≡ loaded_plain (machine_of state.now frame.now maps.now) (value_of base.now) offset size }
{
    match (base, size) {
        (Value::Context, Size::W) => from_context(state, frame, maps, offset),
        _ => loaded(state, frame, maps, base, offset, size),
    }
}

/// MEMSX.
pub fn loaded_signed(
    state: &State,
    frame: &[u8],
    maps: &Maps,
    base: &Value,
    offset: i16,
    size: Size,
) -> Option<Value>
    requires { bytes_in size ≤ 4 }
    ensures { option_map value_of result ≡ loaded_signed (machine_of state.now frame.now maps.now) (value_of base.now) offset size }
{
    let value = loaded(state, frame, maps, base, offset, size)?;
    let n = number_in(&value)?;
    Some(Value::Number(extended(Width::Bits64, 8 * bytes_in(size) as u64, n)))
}

/// A store of a value at an offset from the destination.
pub fn store(
    state: &mut State,
    frame: &mut [u8],
    maps: &mut Maps,
    insn: &Insn,
    size: Size,
    value: &Value,
) -> bool
    requires { insn.now.dst ≤ 10 }
    ensures { let m = machine_of state.old frame.old maps.old in
        Makes result (stored m (register m.registers insn.now.dst) insn.now.offset size (value_of value.now)) m (machine_of state.new frame.new maps.new) }
{
    match (state.registers.get(insn.dst), value) {
        (Value::Packet(o), Value::Number(n)) => to_frame(frame, *o, insn.offset, size, *n),
        (Value::Stack(o), _) => state.stack.store(*o, insn.offset, size, value),
        (Value::Entry(q, o, key), Value::Number(n)) => {
            to_entry(maps, *q, key.bytes(), *o, insn.offset, size, *n)
        }
        _ => false,
    }
}
