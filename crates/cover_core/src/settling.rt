// Where a run goes on without a test.

ghost use Rattle.std.specs.Prelude.{◌≡◌, ◌<◌, length, All, IfSome, OnSome, Some, None, slice_index_or};
ghost use Rattle.xdp_machine.specs.bpf_isa.Spelling.{IsInsn};
ghost use Rattle.unfold_core.specs.Units.{ArePlaces};
ghost use Rattle.cover_core.specs.Settling.{side, sure_side, settled};

use kind_core::{Kinds, decide};
use unfold_core::target;
use xdp_machine::bpf_isa::{Insn, Op};
use xdp_object::Program;

/// The instruction that begins at a place.
pub(crate) fn insn_at(units: &[Option<Insn>], place: u64) -> Option<Insn>
    requires { All (λ unit. IfSome unit IsInsn) units.now }
    ensures found { result ≡ slice_index_or units.now place None }
    ensures legal { IfSome result IsInsn }
    ensures inside { OnSome result (place < length units.now) }
{
    if place < units.len() as u64 {
        units[place as usize]
    } else {
        None
    }
}

/// Where an instruction leads on a side: to the target of its jump, or to the next place.
pub fn side(place: u32, insn: &Insn, taken: bool) -> Option<u64>
    requires { IsInsn insn.now }
    ensures { result ≡ side place insn.now taken }
{
    if taken {
        target(place, insn)
    } else {
        Some(u64::from(place) + u64::from(insn.op.units()))
    }
}

/// The side on which an instruction leads on without a test: a jump always, a conditional one as these kinds decide it.
pub fn sure_side(insn: &Insn, kinds: &Kinds) -> Option<bool>
    requires { IsInsn insn.now }
    ensures { result ≡ sure_side kinds.now insn.now insn.now.op }
{
    match insn.op {
        Op::Ja(_) => Some(true),
        _ => decide(insn, kinds),
    }
}

/// Where a run settles that goes on at a place, while these kinds describe it: over jumps, and over conditional ones that the kinds decide, at
/// the first other instruction. None where it never does.
pub(crate) fn settle(
    program: &Program,
    units: &[Option<Insn>],
    kinds: &Kinds,
    from: u64,
) -> Option<u64>
    requires { ArePlaces program.now.insns units.now }
    ensures { result ≡ settled program.now.insns kinds.now from }
{
    let mut place = from;
    for _step in 0..units.len() {
        let insn = match insn_at(units, place) {
            Some(insn) => insn,
            None => return None,
        };
        let taken = match sure_side(&insn, kinds) {
            Some(taken) => taken,
            None => return Some(place),
        };
        place = match side(place as u32, &insn, taken) {
            Some(to) => to,
            None => return None,
        };
    }
    None
}
