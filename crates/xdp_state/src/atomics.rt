// Atomic changes of a number in an entry.

ghost use Rattle.std.specs.Prelude.{◌≡◌, ◌≤◌, ℕ, List, IfSome, Some, is_some, true};
ghost use Rattle.xdp_machine.specs.xdp_maps.Calls.{change_bytes};
ghost use Rattle.xdp_machine.specs.Values as seen;
ghost use Rattle.xdp_machine.specs.Memory.{bytes_in};
ghost use Rattle.xdp_machine.specs.Atomics.{fetches, kind_of, wide_of, comparand, change_of, taking, atomic};
ghost use Rattle.xdp_state.specs.Cases.{Makes};
ghost use Rattle.xdp_state.specs.Machines.{machine_of};

use crate::entries::change_entry;
use crate::pointers::number_in;
use crate::registers::Registers;
use crate::state::State;
use crate::value::Value;
use xdp_machine::bpf_isa::{Insn, Size};
use xdp_machine::xdp_maps::change::{Change, ChangeKind};
use xdp_machine::xdp_maps::state::Maps;

// Whether the old number is fetched.
fn fetches(code: u64) -> bool
    ensures { result ≡ fetches code }
{
    code % 2 == 1
}

// The kind of change.
fn kind_of(code: u64) -> Option<ChangeKind>
    ensures { result ≡ kind_of code }
{
    match code - code % 2 {
        0x00 => Some(ChangeKind::Add),
        0x40 => Some(ChangeKind::Or),
        0x50 => Some(ChangeKind::And),
        0xa0 => Some(ChangeKind::Xor),
        0xe0 => Some(ChangeKind::Xchg),
        0xf0 => Some(ChangeKind::Cmpxchg),
        _ => None,
    }
}

// Whether four or eight bytes are changed.
fn wide_of(size: Size) -> Option<bool>
    ensures { result ≡ wide_of size }
{
    match size {
        Size::W => Some(false),
        Size::Dw => Some(true),
        _ => None,
    }
}

// What CMPXCHG compares with.
fn comparand(registers: &Registers, kind: ChangeKind) -> Option<u64>
    ensures { result ≡ comparand registers.now kind }
{
    match kind {
        ChangeKind::Cmpxchg => number_in(registers.get(0)),
        _ => Some(0),
    }
}

// The change that an instruction makes.
fn change_of(registers: &Registers, insn: &Insn, size: Size) -> Option<Change>
    requires { insn.now.src ≤ 10 }
    ensures value { result ≡ change_of registers.now insn.now size }
    ensures width { IfSome result (λ x. change_bytes x.wide ≡ bytes_in size) }
{
    let wide = wide_of(size)?;
    let kind = kind_of(insn.imm.cast_unsigned())?;
    let source = number_in(registers.get(insn.src))?;
    let compare = comparand(registers, kind)?;
    Some(Change {
        kind,
        wide,
        source,
        compare,
    })
}

// Whether the old number may go where it goes: R10 is not written.
fn may_take(insn: &Insn, kind: ChangeKind) -> bool
    ensures { (registers : List seen.Value) (old : ℕ) → is_some (taking registers kind insn.now old) ≡ result }
{
    match kind {
        ChangeKind::Cmpxchg => true,
        _ => !fetches(insn.imm.cast_unsigned()) || insn.src != 10,
    }
}

// The old number goes where it goes.
fn take(registers: &mut Registers, insn: &Insn, kind: ChangeKind, old: u64)
    requires src { insn.now.src ≤ 10 }
    requires may { is_some (taking registers.old kind insn.now old) ≡ true }
    ensures { taking registers.old kind insn.now old ≡ Some registers.new }
{
    match kind {
        ChangeKind::Cmpxchg => {
            registers.put(0, Value::Number(old));
        }
        _ => {
            if fetches(insn.imm.cast_unsigned()) {
                registers.put(insn.src, Value::Number(old));
            }
        }
    }
}

/// An atomic change, whatever the frame is.
pub fn atomic(state: &mut State, maps: &mut Maps, insn: &Insn, size: Size) -> bool
    requires dst { insn.now.dst ≤ 10 }
    requires src { insn.now.src ≤ 10 }
    ensures { (frame : List ℕ) → Makes result (atomic (machine_of state.old frame maps.old) insn.now size) (machine_of state.old frame maps.old) (machine_of state.new frame maps.new) }
{
    let Some(change) = change_of(&state.registers, insn, size) else {
        return false;
    };
    let Value::Entry(q, o, key) = state.registers.get(insn.dst) else {
        return false;
    };
    if !may_take(insn, change.kind) {
        return false;
    }
    let found = change_entry(maps, *q, key.bytes(), *o, insn.offset, size, change);
    let Some(old) = found else {
        return false;
    };
    take(&mut state.registers, insn, change.kind, old);
    true
}
