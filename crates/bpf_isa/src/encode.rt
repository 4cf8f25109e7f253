// Instructions to bytes (RFC 9669, section 3).

ghost use Rattle.std.specs.Prelude.{◌≡◌, ◌-◌, ◌*◌, ◌++◌, replicate};
ghost use Rattle.bpf_isa.specs.Spelling.{Begins, IsInsn, spelling, units_of};

use crate::instruction::Insn;
use crate::opcode::opcode_of;
use crate::operation::Op;
use crate::unit::Unit;
use bits_core::slice;

/// The bytes of an instruction, with zeros after a single unit, and how many units it has.
pub fn encode_one(insn: &Insn) -> ([u8; 16], u8)
    requires { IsInsn insn.now }
    ensures bytes { result.0 ≡ spelling insn.now ++ replicate (16 - 8 * units_of insn.now.op) 0 }
    ensures units { result.1 ≡ units_of insn.now.op }
    // So `decode_one` gives the instruction back.
    ensures front { Begins result.0 insn.now }
{
    let imm = insn.imm.cast_unsigned();
    let first = Unit {
        code: opcode_of(insn.op),
        dst: insn.dst,
        src: insn.src,
        offset: insn.offset,
        imm: slice(imm, 31, 0) as u32,
    };
    let mut bytes = [0; 16];
    first.write(&mut bytes);
    if insn.op == Op::LoadImm {
        let second = Unit {
            code: 0,
            dst: 0,
            src: 0,
            offset: 0,
            imm: slice(imm, 63, 32) as u32,
        };
        second.write(&mut bytes[8..]);
    }
    (bytes, insn.op.units())
}
