// Jumps, and the places that they lead to.

ghost use Rattle.std.specs.Prelude.{◌≡◌, ◌+◌, ◌+ℤ◌, pos, FitsSigned, Some, IfSome};
ghost use Rattle.std.specs.Int.{w32};
ghost use Rattle.xdp_machine.specs.bpf_isa.Spelling.{IsInsn};
ghost use Rattle.unfold_core.specs.Jumps.{distance, natural, led_to, target_of};

use xdp_machine::bpf_isa::{Insn, Op, Width};

// How far a jump leads from the next place.
fn distance(insn: &Insn) -> Option<i64>
    requires { IsInsn insn.now }
    ensures distance { result ≡ distance insn.now insn.now.op }
    ensures range { IfSome result (λ d. FitsSigned w32 d) }
{
    match insn.op {
        Op::Ja(Width::Bits64) => Some(i64::from(insn.offset)),
        Op::Ja(Width::Bits32) => Some(insn.imm),
        Op::Jump(_, _, _) => Some(i64::from(insn.offset)),
        _ => None,
    }
}

// No place lies below 0.
fn natural(to: i64) -> Option<u64>
    ensures { result ≡ natural to }
{
    if to < 0 { None } else { Some(to as u64) }
}

// Where a distance from the next place leads.
fn led_to(place: u32, distance: i64) -> Option<u64>
    requires { FitsSigned w32 distance }
    ensures { result ≡ natural (pos (place + 1) +ℤ distance) }
{
    let to = i64::from(place) + 1 + distance;
    natural(to)
}

/// The target of the jump at a place, in units: none where the instruction is no jump or the target lies below place 0. The target of
/// a jump is the next place plus its distance (RFC 9669, section 4.3).
pub fn target(place: u32, insn: &Insn) -> Option<u64>
    requires { IsInsn insn.now }
    ensures { result ≡ target_of place (Some insn.now) }
{
    match distance(insn) {
        Some(distance) => led_to(place, distance),
        None => None,
    }
}
