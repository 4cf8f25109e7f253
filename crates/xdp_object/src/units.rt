//! The least program.

ghost use Rattle.std.specs.Prelude.{◌≡◌, IsTrue, ℤ, IfSome, Some};
ghost use Rattle.xdp_object.specs.TwoUnits.{leave, move_number, two_units};

use crate::program::Program;
use bpf_isa::{AluCode, Insn, Op, Src, Width};

// Whether an instruction is `r0 = number`, for its number.
fn is_move(insn: &Insn) -> bool
    ensures yes { IsTrue result → insn.now ≡ move_number insn.now.imm }
    ensures no { insn.now ≡ move_number insn.now.imm → IsTrue result }
{
    match insn.op {
        Op::Alu(Width::Bits64, AluCode::Mov, Src::K) => {
            insn.dst == 0 && insn.src == 0 && insn.offset == 0
        }
        _ => false,
    }
}

// Whether an instruction is `exit`.
fn is_leave(insn: &Insn) -> bool
    ensures yes { IsTrue result → insn.now ≡ leave }
    ensures no { insn.now ≡ leave → IsTrue result }
{
    match insn.op {
        Op::Exit => insn.dst == 0 && insn.src == 0 && insn.offset == 0 && insn.imm == 0,
        _ => false,
    }
}

/// The number of a program that is the two units `r0 = number` and `exit`.
pub fn two_units(program: &Program) -> Option<i64>
    ensures found { IfSome result (λ k. program.now.insns ≡ two_units k) }
    ensures only { (k : ℤ) → program.now.insns ≡ two_units k → result ≡ Some k }
{
    match program.insns() {
        [first, second] if is_move(first) && is_leave(second) => Some(first.imm),
        _ => None,
    }
}
