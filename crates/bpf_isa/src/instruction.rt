// An instruction.

ghost use Rattle.std.specs.Prelude.{◌↔◌, IsTrue};
ghost use Rattle.bpf_isa.specs.Spelling.{FitsOp, IsInsn};

use crate::fields::{allows, is_sized, rules_of};
use crate::operation::Op;

/// An instruction and its fields. Which values are instructions, `IsInsn` of `specs/Spelling.antt`
/// says.
#[derive(Copy, Clone, Debug, PartialEq, Eq)]
pub struct Insn {
    pub op: Op,
    /// The destination register, 0 to 10.
    pub dst: u8,
    /// The source register, 0 to 10, or the kind of a call or of a 64-bit number.
    pub src: u8,
    pub offset: i16,
    /// The immediate number, of 32 bits in all but the load of 64.
    pub imm: i64,
}

impl Insn {
    /// Whether this is an instruction of the table: its fields hold what its operation allows.
    pub fn is_legal(&self) -> bool
        ensures { IsTrue result ↔ IsInsn self.now }
    {
        if self.dst > 10 || self.src > 10 || !has_range(self.op, self.imm) || !is_sized(self.op) {
            return false;
        }
        let rules = rules_of(self.op);
        allows(rules.dst, i64::from(self.dst))
            && allows(rules.src, i64::from(self.src))
            && allows(rules.offset, i64::from(self.offset))
            && allows(rules.imm, self.imm)
    }
}

// Whether the immediate number has as many bits as its operation gives it.
fn has_range(op: Op, imm: i64) -> bool
    ensures { IsTrue result ↔ FitsOp op imm }
{
    match op {
        Op::LoadImm => true,
        _ => i64::from(i32::MIN) <= imm && imm <= i64::from(i32::MAX),
    }
}

/// No instruction begins there.
#[derive(Copy, Clone, Debug, PartialEq, Eq, thiserror::Error)]
#[error("no instruction")]
pub struct BadInsn;
