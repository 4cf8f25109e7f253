// One step.

ghost use Rattle.std.specs.Prelude.{◌≡◌, ◌+◌, ◌<◌, ◌≤◌, ◌^◌, ◌+ℤ◌, ℕ, List, pos, ◌==◌, FitsSigned, length, is_some, IfSome, IsTrue};
ghost use Rattle.std.specs.Int.{w32};
ghost use Rattle.std.specs.List.{list_any};
ghost use Rattle.std.specs.Option.{option_copied, option_map};
ghost use Rattle.xdp_state.specs.bpf_isa.Text.{insn_at};
ghost use Rattle.xdp_state.specs.bpf_isa.Spelling.{IsInsn, units_of};
ghost use Rattle.xdp_state.specs.xdp_maps.State.{MapState};
ghost use Rattle.xdp_state.specs.xdp_machine.Values as seen;
ghost use Rattle.xdp_state.specs.xdp_machine.State.{Machine, begins, register};
ghost use Rattle.xdp_state.specs.xdp_machine.Pointers.{compared};
ghost use Rattle.xdp_state.specs.xdp_machine.Step.{goes_to, goes_on, jumps, exits, operand, constant, effect, outcome, step};
ghost use Rattle.xdp_state.specs.Views.{value_of};
ghost use Rattle.xdp_state.specs.Cases.{Makes};
ghost use Rattle.xdp_state.specs.Machines.{machine_of};
ghost use Rattle.xdp_seq.specs.Units.{AreUnits, insns_of, code_of};
ghost use Rattle.xdp_seq.specs.Flows.{Flows};

use crate::calls::call;
use crate::flow::Flow;
use xdp_state::bpf_isa::{Insn, JumpCode, Op, Src, Width};
use xdp_state::xdp_maps::state::Maps;
use xdp_state::{
    State, Value, alu, assign, atomic, immediate, loaded_plain, loaded_signed, number_in, store,
    taken,
};

// The instruction that begins at a place.
fn insn_at(units: &[Option<Insn>], place: usize) -> Option<&Insn>
    requires { AreUnits units.now }
    ensures found { option_copied result ≡ insn_at (insns_of units.now) place }
    ensures legal { IfSome result (λ i. IsInsn i.now) }
    ensures inside { IfSome result (λ _. place < 2 ^ 32) }
{
    match units.get(place) {
        Some(unit) => unit.as_ref(),
        None => None,
    }
}

// Goes on at a place, whatever the frame and the maps are.
fn goes_to(state: &mut State, units: &[Option<Insn>], to: i64) -> Flow
    requires { AreUnits units.now }
    ensures { (frame : List ℕ) (maps : MapState) → Flows result (goes_to (insns_of units.now) to (machine_of state.old frame maps)) (machine_of state.old frame maps) (machine_of state.new frame maps) }
{
    if to < 0 {
        return Flow::Stuck;
    }
    match insn_at(units, to as usize) {
        Some(_) => {
            state.place = to as u32;
            Flow::Next
        }
        None => Flow::Stuck,
    }
}

// Goes on at a distance from the next unit, whatever the frame and the maps are.
fn goes_over(state: &mut State, units: &[Option<Insn>], distance: i64) -> Flow
    requires units { AreUnits units.now }
    requires distance { FitsSigned w32 distance }
    ensures { (frame : List ℕ) (maps : MapState) → let m = machine_of state.old frame maps in
        Flows result (goes_to (insns_of units.now) (pos (m.place + 1) +ℤ distance) m) m (machine_of state.new frame maps) }
{
    let to = i64::from(state.place) + 1 + distance;
    goes_to(state, units, to)
}

// A jump, whatever the frame and the maps are.
fn jump(
    state: &mut State,
    units: &[Option<Insn>],
    insn: &Insn,
    width: Width,
    code: JumpCode,
    src: Src,
) -> Flow
    requires units { AreUnits units.now }
    requires dst { insn.now.dst ≤ 10 }
    requires src { insn.now.src ≤ 10 }
    ensures { (frame : List ℕ) (maps : MapState) → let m = machine_of state.old frame maps in
        Flows result (jumps (insns_of units.now) insn.now.offset m (compared width code (register m.registers insn.now.dst) (operand m.registers insn.now src))) m (machine_of state.new frame maps) }
{
    let next = i64::from(state.place) + 1;
    match taken(&state.registers, insn, width, code, src) {
        Some(true) => goes_over(state, units, i64::from(insn.offset)),
        Some(false) => goes_to(state, units, next),
        None => Flow::Stuck,
    }
}

// The end of a run.
fn exit(state: &State) -> Flow
    ensures { (m : Machine) → Flows result (exits (seen.number_in (register state.now.registers 0))) m m }
{
    match number_in(state.registers.get(0)) {
        Some(n) => Flow::Ended((n % (1 << 32)) as u32),
        None => Flow::Stuck,
    }
}

// Whether a place is one of these.
fn is_among(places: &[u32], place: u32) -> bool
    ensures { result ≡ list_any (λ p. p == place) places.now }
{
    places.iter().any(|p| *p == place)
}

// A number of 64 bits, or a map.
fn constant(refs: &[u32], place: u32, insn: &Insn) -> Option<Value>
    ensures { option_map value_of result ≡ constant refs.now place insn.now }
{
    if insn.src != 0 {
        return None;
    }
    let n = insn.imm.cast_unsigned();
    if is_among(refs, place) {
        Some(Value::Map((n % (1 << 32)) as u32))
    } else {
        Some(Value::Number(n))
    }
}

// What an instruction that does not jump makes of the machine.
fn effect(refs: &[u32], state: &mut State, frame: &mut [u8], maps: &mut Maps, insn: &Insn) -> bool
    requires { IsInsn insn.now }
    ensures { let m = machine_of state.old frame.old maps.old in
        Makes result (effect refs.now m insn.now insn.now.op) m (machine_of state.new frame.new maps.new) }
{
    match insn.op {
        Op::LoadImm => {
            let value = constant(refs, state.place, insn);
            assign(&mut state.registers, insn, value)
        }
        Op::Load(size) => {
            let base = state.registers.get(insn.src);
            let value = loaded_plain(state, frame, maps, base, insn.offset, size);
            assign(&mut state.registers, insn, value)
        }
        Op::LoadSigned(size) => {
            let base = state.registers.get(insn.src);
            let value = loaded_signed(state, frame, maps, base, insn.offset, size);
            assign(&mut state.registers, insn, value)
        }
        Op::StoreImm(size) => store(state, frame, maps, insn, size, &immediate(insn)),
        Op::Store(size) => {
            let value = *state.registers.get(insn.src);
            store(state, frame, maps, insn, size, &value)
        }
        Op::Atomic(size) => atomic(state, maps, insn, size),
        Op::Call => insn.src == 0 && call(state, frame, maps, insn.imm),
        Op::Abs(_) | Op::Ind(_) => false,
        _ => alu(&mut state.registers, insn),
    }
}

// An instruction that does not jump: it has no case where none follows it.
fn goes_on(
    units: &[Option<Insn>],
    refs: &[u32],
    state: &mut State,
    frame: &mut [u8],
    maps: &mut Maps,
    insn: &Insn,
) -> Flow
    requires units { AreUnits units.now }
    requires insn { IsInsn insn.now }
    ensures { let m = machine_of state.old frame.old maps.old in
        Flows result (goes_on (insns_of units.now) m.place (units_of insn.now.op) (effect refs.now m insn.now insn.now.op)) m (machine_of state.new frame.new maps.new) }
{
    let next = state.place as usize + usize::from(insn.op.units());
    if insn_at(units, next).is_none() {
        return Flow::Stuck;
    }
    if effect(refs, state, frame, maps, insn) {
        state.place = next as u32;
        Flow::Next
    } else {
        Flow::Stuck
    }
}

/// One step.
pub(crate) fn step(
    units: &[Option<Insn>],
    refs: &[u32],
    state: &mut State,
    frame: &mut [u8],
    maps: &mut Maps,
) -> Flow
    requires { AreUnits units.now }
    ensures { let m = machine_of state.old frame.old maps.old in
        Flows result (step (code_of units.now refs.now) m) m (machine_of state.new frame.new maps.new) }
{
    match insn_at(units, state.place as usize) {
        Some(insn) => outcome(units, refs, state, frame, maps, insn),
        None => Flow::Stuck,
    }
}

// What an instruction leads to.
fn outcome(
    units: &[Option<Insn>],
    refs: &[u32],
    state: &mut State,
    frame: &mut [u8],
    maps: &mut Maps,
    insn: &Insn,
) -> Flow
    requires units { AreUnits units.now }
    requires insn { IsInsn insn.now }
    ensures { let m = machine_of state.old frame.old maps.old in
        Flows result (outcome (code_of units.now refs.now) m insn.now insn.now.op) m (machine_of state.new frame.new maps.new) }
{
    match insn.op {
        Op::Ja(width) => match width {
            Width::Bits64 => goes_over(state, units, i64::from(insn.offset)),
            Width::Bits32 => goes_over(state, units, insn.imm),
        },
        Op::Jump(width, code, src) => jump(state, units, insn, width, code, src),
        Op::Exit => exit(state),
        _ => goes_on(units, refs, state, frame, maps, insn),
    }
}
