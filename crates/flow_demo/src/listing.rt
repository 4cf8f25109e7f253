//! The program's listing.

ghost use Rattle.std.specs.Prelude.{◌≡◌, All, IfOk};
ghost use Rattle.bpf_isa.specs.Spelling.{IsInsn};
ghost use Rattle.bpf_isa.specs.Text.{text_of};

use bpf_isa::{AluCode, Helper, Insn, JumpCode, Op, Size, Src, Width, encode_one};
use std::alloc::{AllocError, Global};

/// An instruction: its operation, destination, source, offset and number.
macro_rules! insn {
    ($op:expr, $dst:expr, $src:expr, $offset:expr, $imm:expr) => {
        Insn {
            op: $op,
            dst: $dst,
            src: $src,
            offset: $offset,
            imm: $imm,
        }
    };
}

/// The instructions of the program.
pub(crate) const LISTING: [Insn; 29] = [
    insn!(Op::Load(Size::W), 2, 1, 4, 0),
    insn!(Op::Load(Size::W), 1, 1, 0, 0),
    insn!(Op::Alu(Width::Bits64, AluCode::Mov, Src::X), 3, 1, 0, 0),
    insn!(Op::Alu(Width::Bits64, AluCode::Add, Src::K), 3, 0, 0, 14),
    insn!(Op::Alu(Width::Bits64, AluCode::Mov, Src::K), 0, 0, 0, 1),
    insn!(Op::Jump(Width::Bits64, JumpCode::Jgt, Src::X), 3, 2, 24, 0),
    insn!(Op::Load(Size::W), 6, 1, 6, 0),
    insn!(Op::Load(Size::B), 7, 1, 12, 0),
    insn!(Op::Store(Size::W), 10, 6, -4, 0),
    insn!(Op::StoreImm(Size::Dw), 10, 0, -16, 1),
    insn!(Op::LoadImm, 1, 0, 0, 0),
    insn!(Op::Alu(Width::Bits64, AluCode::Mov, Src::X), 2, 10, 0, 0),
    insn!(Op::Alu(Width::Bits64, AluCode::Add, Src::K), 2, 0, 0, -4),
    insn!(Op::Call, 0, 0, 0, Helper::Lookup as i64),
    insn!(Op::Jump(Width::Bits64, JumpCode::Jne, Src::K), 0, 0, 9, 0),
    insn!(Op::LoadImm, 1, 0, 0, 0),
    insn!(Op::Alu(Width::Bits64, AluCode::Mov, Src::X), 2, 10, 0, 0),
    insn!(Op::Alu(Width::Bits64, AluCode::Add, Src::K), 2, 0, 0, -4),
    insn!(Op::Alu(Width::Bits64, AluCode::Mov, Src::X), 3, 10, 0, 0),
    insn!(Op::Alu(Width::Bits64, AluCode::Add, Src::K), 3, 0, 0, -16),
    insn!(Op::Alu(Width::Bits64, AluCode::Mov, Src::K), 4, 0, 0, 0),
    insn!(Op::Call, 0, 0, 0, Helper::Update as i64),
    insn!(Op::Ja(Width::Bits64), 0, 0, 2, 0),
    insn!(Op::Alu(Width::Bits64, AluCode::Mov, Src::K), 1, 0, 0, 1),
    insn!(Op::Atomic(Size::Dw), 0, 1, 0, 0),
    insn!(Op::Alu(Width::Bits64, AluCode::Mov, Src::X), 0, 7, 0, 0),
    insn!(Op::Alu(Width::Bits64, AluCode::And, Src::K), 0, 0, 0, 1),
    insn!(Op::Alu(Width::Bits64, AluCode::Add, Src::K), 0, 0, 0, 1),
    insn!(Op::Exit, 0, 0, 0, 0),
];

/// The bytes of instructions, one after the other.
pub(crate) fn code_of(alloc: Global, insns: &[Insn]) -> Result<Vec<u8>, AllocError>
    requires { All IsInsn insns.now }
    ensures { IfOk result (λ code. code.items ≡ text_of insns.now) }
{
    let mut code = Vec::new(alloc);
    for insn in insns {
        let (bytes, units) = encode_one(insn);
        code.extend_from_slice(&bytes[..8 * units as usize])?;
    }
    Ok(code)
}
