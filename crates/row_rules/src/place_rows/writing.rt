// Where an instruction writes.

ghost use Rattle.std.specs.Prelude.{◌≡◌};
ghost use Rattle.xdp_state.specs.bpf_isa.Spelling.{IsInsn};
ghost use Rattle.row_rules.specs.PlaceRows.Writing.{writes_as};

use crate::place_rows::calls::call_writes;
use crate::place_rows::reading::{compares, fetches};
use crate::place_rows::span::{NONE, Span, region, register};
use kind_core::Kinds;
use xdp_state::bpf_isa::{Helper, Insn, Op};
use xdp_state::memory::bytes_in;

/// The places in which an instruction writes its result.
pub fn writes(kinds: &Kinds, insn: &Insn) -> [Span; 2]
    requires { IsInsn insn.now }
    ensures { result ≡ writes_as kinds.now insn.now insn.now.op }
{
    match insn.op {
        Op::Alu(_, _, _) | Op::Neg(_) | Op::End(_) | Op::Swap | Op::LoadImm => {
            [register(insn.dst), NONE]
        }
        Op::Load(_) | Op::LoadSigned(_) => [register(insn.dst), NONE],
        Op::StoreImm(size) | Op::Store(size) => {
            let base = kinds.registers[insn.dst as usize];
            [region(base, insn.offset, bytes_in(size) as u32), NONE]
        }
        Op::Atomic(_) => {
            if compares(insn) {
                [register(0), NONE]
            } else if fetches(insn) {
                [register(insn.src), NONE]
            } else {
                [NONE, NONE]
            }
        }
        Op::Call => [register(0), call_writes(Helper::of(insn.imm))],
        _ => [NONE, NONE],
    }
}
