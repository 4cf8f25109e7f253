// Bytes to instructions (RFC 9669, section 3).

ghost use Rattle.std.specs.Prelude.{◌≡◌, ◌≢◌, ℕ, ℤ, ◌+◌, ◌*◌, ◌%◌, ◌^◌, ◌≤◌, ◌<◌, ◌↔◌, length, Ok, Err, IfOk, IsErrOf};
ghost use Rattle.bpf_isa.specs.Spelling.{Begins, HasImm, StandsAt, units_of};
ghost use Rattle.bpf_isa.specs.Text.{FirstBad, Spells};
ghost use Rattle.bpf_isa.specs.declared.decode.DecodeError.TheVariants.{NoMemory};
ghost use Rattle.bpf_isa.specs.declared.instruction.Insn.{Insn};
ghost use Rattle.bpf_isa.specs.declared.operation.Op.TheVariants.{LoadImm};

use crate::instruction::{BadInsn, Insn};
use crate::opcode::op_of;
use crate::operation::Op;
use crate::unit::Unit;
use bits_core::join;
use std::alloc::{AllocFailed, Global};

/// Why bytes are no text of instructions.
#[derive(Copy, Clone, Debug, PartialEq, Eq, thiserror::Error)]
pub enum DecodeError {
    /// The length is no multiple of 8.
    #[error("the code is not made of whole units")]
    Odd,
    /// No instruction begins at this unit, the first where one has to.
    #[error("no instruction at unit {at}")]
    Bad { at: u64 },
    #[error("out of memory")]
    NoMemory,
}

impl<T: Drop> From<AllocFailed<T>> for DecodeError {
    ghost from_gives = { λ _ e. e ≡ NoMemory };

    fn from(_failed: AllocFailed<T>) -> DecodeError {
        DecodeError::NoMemory
    }
}

/// The instruction at unit `at` of a text, which is below the number of its whole units, and how
/// many units it has. A load of 64 bits without its second unit is no instruction.
pub fn decode_one(code: &[u8], at: u32) -> Result<(Insn, u8), BadInsn>
    requires { 8 * (at + 1) ≤ length code.now }
    ensures found { IfOk result (λ p. StandsAt code.now at p.0 × (p.1 ≡ units_of p.0.op)) }
    ensures only { (i : Insn) → StandsAt code.now at i → result ≡ Ok (i, units_of i.op) }
{
    decode_front(&code[8 * at as usize..])
}

/// The instruction at the front of bytes, and how many units it has.
fn decode_front(bytes: &[u8]) -> Result<(Insn, u8), BadInsn>
    requires { 8 ≤ length bytes.now }
    ensures found { IfOk result (λ p. Begins bytes.now p.0 × (p.1 ≡ units_of p.0.op)) }
    ensures only { (i : Insn) → Begins bytes.now i → result ≡ Ok (i, units_of i.op) }
{
    let first = Unit::read(bytes);
    let Some(op) = op_of(first.code) else {
        return Err(BadInsn);
    };
    let insn = Insn {
        op,
        dst: first.dst,
        src: first.src,
        offset: first.offset,
        imm: imm_of(op, first.imm, &bytes[8..])?,
    };
    if insn.is_legal() {
        Ok((insn, op.units()))
    } else {
        Err(BadInsn)
    }
}

/// The immediate number of an operation, by the low half of it and the bytes after its first unit.
fn imm_of(op: Op, low: u32, rest: &[u8]) -> Result<i64, BadInsn>
    ensures found { IfOk result (HasImm op low rest.now) }
    ensures only { (imm : ℤ) → HasImm op low rest.now imm → result ≡ Ok imm }
{
    match op {
        Op::LoadImm => wide_imm(low, rest),
        _ => Ok(i64::from(low.cast_signed())),
    }
}

/// A number of 64 bits, whose high half is in the unit at the front of `rest`.
fn wide_imm(low: u32, rest: &[u8]) -> Result<i64, BadInsn>
    ensures found { IfOk result (HasImm LoadImm low rest.now) }
    ensures only { (imm : ℤ) → HasImm LoadImm low rest.now imm → result ≡ Ok imm }
{
    if rest.len() < 8 {
        return Err(BadInsn);
    }
    let second = Unit::read(rest);
    if second.code != 0 || second.dst != 0 || second.src != 0 || second.offset != 0 {
        return Err(BadInsn);
    }
    Ok(join(u64::from(second.imm), u64::from(low), 32).cast_signed())
}

/// The instructions of a whole text, one after the other. Its errors are `Odd` where the length is
/// no multiple of 8, `Bad` with the first unit where an instruction has to begin and none does, and
/// `NoMemory`.
pub fn decode_all(alloc: Global, code: &[u8]) -> Result<Vec<Insn>, DecodeError>
    ensures ok { IfOk result (λ v. Spells code.now v.items) }
    ensures odd { IsErrOf result DecodeError.Odd ↔ (length code.now % 8 ≢ 0) }
    ensures bad { (at : ℕ) → IsErrOf result (DecodeError.Bad at) → FirstBad code.now at }
{
    if code.len() % 8 != 0 {
        return Err(DecodeError::Odd);
    }
    let mut insns = Vec::new(alloc);
    let mut at = 0;
    while 8 * at < code.len() {
        let Ok((insn, units)) = decode_front(&code[8 * at..]) else {
            return Err(DecodeError::Bad { at: at as u64 });
        };
        insns.push(insn)?;
        at += usize::from(units);
    }
    Ok(insns)
}
