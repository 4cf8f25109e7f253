// Calls of helpers.

ghost use Rattle.std.specs.Prelude.{◌≡◌, ℕ, List};
ghost use Rattle.xdp_state.specs.bpf_isa.Helpers.{helper_of};
ghost use Rattle.xdp_state.specs.xdp_maps.State.{MapState};
ghost use Rattle.xdp_state.specs.xdp_machine.Values as seen;
ghost use Rattle.xdp_state.specs.xdp_machine.Helpers.{lookup, update, delete, packet_time, redirect, called};
ghost use Rattle.xdp_state.specs.Views.{value_of};
ghost use Rattle.xdp_state.specs.Cases.{Makes};
ghost use Rattle.xdp_state.specs.Machines.{machine_of};

use xdp_state::bpf_isa::Helper;
use xdp_state::xdp_maps::state::Maps;
use xdp_state::{Key, State, Value, declared, fill, number_in};

/// XDP_REDIRECT of linux/bpf.h.
const XDP_REDIRECT: u64 = 4;

/// XDP_ABORTED of linux/bpf.h.
const XDP_ABORTED: u64 = 0;

// The map that a value is.
fn map_in(value: &Value) -> Option<u32>
    ensures { result ≡ seen.map_in (value_of value.now) }
{
    match value {
        Value::Map(q) => Some(*q),
        _ => None,
    }
}

// bpf_map_lookup_elem(map, key)
fn lookup(state: &mut State, frame: &[u8], maps: &Maps) -> bool
    ensures { Makes result (lookup (machine_of state.old frame.now maps.now)) (machine_of state.old frame.now maps.now) (machine_of state.new frame.now maps.now) }
{
    let Some(q) = map_in(state.registers.get(1)) else {
        return false;
    };
    let Some(decl) = declared(maps, q) else {
        return false;
    };
    let mut buffer = [0; Key::MAX_LEN];
    let key = &mut buffer[..decl.key as usize];
    if !fill(&state.stack, frame, state.registers.get(2), key) {
        return false;
    }
    let answer = match maps.lookup(q, key) {
        Some(_) => Value::Entry(q, 0, Key::of(key)),
        None => Value::Number(0),
    };
    state.registers.answer(answer);
    true
}

// bpf_map_update_elem(map, key, value, flags)
fn update(state: &mut State, frame: &[u8], maps: &mut Maps) -> bool
    ensures { Makes result (update (machine_of state.old frame.now maps.old)) (machine_of state.old frame.now maps.old) (machine_of state.new frame.now maps.new) }
{
    let Some(q) = map_in(state.registers.get(1)) else {
        return false;
    };
    let Some(decl) = declared(maps, q) else {
        return false;
    };
    let mut key_buffer = [0; Key::MAX_LEN];
    let mut value_buffer = [0; 64];
    let key = &mut key_buffer[..decl.key as usize];
    let value = &mut value_buffer[..decl.value as usize];
    if !fill(&state.stack, frame, state.registers.get(2), key) {
        return false;
    }
    if !fill(&state.stack, frame, state.registers.get(3), value) {
        return false;
    }
    let Some(flags) = number_in(state.registers.get(4)) else {
        return false;
    };
    let answer = maps.update(q, key, value, flags);
    state
        .registers
        .answer(Value::Number(answer.cast_unsigned()));
    true
}

// bpf_map_delete_elem(map, key)
fn delete(state: &mut State, frame: &[u8], maps: &mut Maps) -> bool
    ensures { Makes result (delete (machine_of state.old frame.now maps.old)) (machine_of state.old frame.now maps.old) (machine_of state.new frame.now maps.new) }
{
    let Some(q) = map_in(state.registers.get(1)) else {
        return false;
    };
    let Some(decl) = declared(maps, q) else {
        return false;
    };
    let mut buffer = [0; Key::MAX_LEN];
    let key = &mut buffer[..decl.key as usize];
    if !fill(&state.stack, frame, state.registers.get(2), key) {
        return false;
    }
    let answer = maps.delete(q, key);
    state
        .registers
        .answer(Value::Number(answer.cast_unsigned()));
    true
}

// bpf_ktime_get_ns(): when the packet was captured, whatever the frame and the maps are
fn packet_time(state: &mut State) -> bool
    ensures { (frame : List ℕ) (maps : MapState) → Makes result (packet_time (machine_of state.old frame maps)) (machine_of state.old frame maps) (machine_of state.new frame maps) }
{
    state.registers.answer(Value::Number(state.time));
    true
}

// bpf_redirect(ifindex, flags), whatever the frame and the maps are
fn redirect(state: &mut State) -> bool
    ensures { (frame : List ℕ) (maps : MapState) → Makes result (redirect (machine_of state.old frame maps)) (machine_of state.old frame maps) (machine_of state.new frame maps) }
{
    let Some(ifindex) = number_in(state.registers.get(1)) else {
        return false;
    };
    let Some(flags) = number_in(state.registers.get(2)) else {
        return false;
    };
    if flags == 0 {
        state.target = (ifindex % (1 << 32)) as u32;
        state.registers.answer(Value::Number(XDP_REDIRECT));
    } else {
        state.registers.answer(Value::Number(XDP_ABORTED));
    }
    true
}

// A call of a helper.
fn help(state: &mut State, frame: &[u8], maps: &mut Maps, helper: Helper) -> bool
    ensures { Makes result (called (Some helper) (machine_of state.old frame.now maps.old)) (machine_of state.old frame.now maps.old) (machine_of state.new frame.now maps.new) }
{
    match helper {
        Helper::Lookup => lookup(state, frame, maps),
        Helper::Update => update(state, frame, maps),
        Helper::Delete => delete(state, frame, maps),
        Helper::Time => packet_time(state),
        Helper::Redirect => redirect(state),
    }
}

/// A call of the helper of this number, if there is one.
pub(crate) fn call(state: &mut State, frame: &[u8], maps: &mut Maps, id: i64) -> bool
    ensures { Makes result (called (helper_of id) (machine_of state.old frame.now maps.old)) (machine_of state.old frame.now maps.old) (machine_of state.new frame.now maps.new) }
{
    match Helper::of(id) {
        Some(helper) => help(state, frame, maps, helper),
        None => false,
    }
}
