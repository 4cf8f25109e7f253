// What an instruction does to kinds.

ghost use Rattle.std.specs.Prelude.{◌≡◌, ◌≤◌, IfOk, unsigned_abs};
ghost use Rattle.xdp_machine.specs.bpf_isa.Spelling.{IsInsn};
ghost use Rattle.xdp_machine.specs.bpf_isa.Rules.{Allows};
ghost use Rattle.xdp_machine.specs.bpf_isa.declared.fields.Rule.TheVariants.{SwapBits};
ghost use Rattle.kind_core.specs.Kinds.{register};
ghost use Rattle.kind_core.specs.Numbers.{number_negated, end_bits, number_ordered};
ghost use Rattle.kind_core.specs.Effects.{immediate, operand, assigned, renumbered, alu, based, if_based, jump, effect_as, effect_of, IsInside};

use crate::access::{atomic, loaded_plain, loaded_signed, stored};
use crate::base::{Bounds, base_sum};
use crate::conditions::{Condition, condition_of};
use crate::helpers::called;
use crate::kind::{Kind, Kinds, Offsets};
use crate::number::{self, Number};
use crate::pointers::combined;
use crate::profile::profiled;
use crate::tests::number_in;
use xdp_machine::bpf_isa::{AluCode, Helper, Insn, JumpCode, Op, Src, Width};
use xdp_machine::xdp_maps::decl::MapDecl;
use xdp_state::Why;

/// What an instruction does to kinds.
#[derive(Copy, Clone)]
pub(crate) enum Effect {
    Nothing,
    /// A register gets a kind.
    Register(u8, Kind),
    /// A register gets a new base between bounds.
    NewBase(u8, Bounds),
    /// A register gets a number of 64 bits, or the map that it refers to.
    Constant(u8, i64),
    /// A slot of the stack gets a kind.
    Slot(usize, Kind),
    /// R0 gets the answer of a lookup in a map.
    Lookup(u32),
    /// R0 gets a number.
    Answered,
    /// The same, and a hash has changed.
    Changed(u32),
    /// A jump, with what the kinds say of its condition.
    Compared(Condition),
}

// The immediate number in 64 bits.
fn immediate(insn: &Insn) -> Kind
    ensures { result ≡ immediate insn.now }
{
    Kind::Num(Number::Known(insn.imm.cast_unsigned()))
}

// The second operand.
fn operand(kinds: &Kinds, insn: &Insn, src: Src) -> Kind
    requires { insn.now.src ≤ 10 }
    ensures { result ≡ operand kinds.now insn.now src }
{
    match src {
        Src::K => immediate(insn),
        Src::X => kinds.registers[insn.src as usize],
    }
}

// A kind goes into the destination.
fn assigned(insn: &Insn, kind: Result<Kind, Why>) -> Result<Effect, Why>
    requires { insn.now.dst ≤ 10 }
    ensures value { result ≡ assigned insn.now kind }
    ensures inside { IfOk result IsInside }
{
    match kind {
        Ok(kind) => Ok(Effect::Register(insn.dst, kind)),
        Err(why) => Err(why),
    }
}

// The number in the destination with the other sign.
fn negate(kinds: &Kinds, insn: &Insn, width: Width) -> Result<Kind, Why>
    requires { insn.now.dst ≤ 10 }
    ensures { result ≡ renumbered kinds.now insn.now (number_negated width) }
{
    let n = number_in(kinds.registers[insn.dst as usize])?;
    Ok(Kind::Num(number::negated(width, n)))
}

// The low bytes of the number in the destination in an order.
fn order(kinds: &Kinds, insn: &Insn, end: Src) -> Result<Kind, Why>
    requires dst { insn.now.dst ≤ 10 }
    requires bits { Allows SwapBits insn.now.imm }
    ensures { result ≡ renumbered kinds.now insn.now (number_ordered (end_bits (unsigned_abs insn.now.imm)) end (unsigned_abs insn.now.imm)) }
{
    let n = number_in(kinds.registers[insn.dst as usize])?;
    let bits = insn.imm as u32;
    Ok(Kind::Num(number::ordered(number::end_width(bits), end, bits, n)))
}

// The low bytes of the number in the destination reversed.
fn swap(kinds: &Kinds, insn: &Insn) -> Result<Kind, Why>
    requires dst { insn.now.dst ≤ 10 }
    requires bits { Allows SwapBits insn.now.imm }
    ensures { result ≡ renumbered kinds.now insn.now (number_ordered 64 Src.X (unsigned_abs insn.now.imm)) }
{
    let n = number_in(kinds.registers[insn.dst as usize])?;
    Ok(Kind::Num(number::ordered(Width::Bits64, Src::X, insn.imm as u32, n)))
}

// Arithmetic with two operands.
fn combine(
    decls: &[MapDecl],
    kinds: &Kinds,
    insn: &Insn,
    width: Width,
    code: AluCode,
    src: Src,
) -> Result<Kind, Why>
    requires dst { insn.now.dst ≤ 10 }
    requires src { insn.now.src ≤ 10 }
    requires offset { unsigned_abs insn.now.offset ≤ 32 }
    ensures { result ≡ alu decls.now kinds.now insn.now (Op.Alu width code src) }
{
    let a = kinds.registers[insn.dst as usize];
    let b = operand(kinds, insn, src);
    combined(decls, width, code, insn.offset, src, a, b)
}

// What arithmetic leaves in the destination.
fn alu(decls: &[MapDecl], kinds: &Kinds, insn: &Insn) -> Result<Kind, Why>
    requires { IsInsn insn.now }
    ensures { result ≡ alu decls.now kinds.now insn.now insn.now.op }
{
    match insn.op {
        Op::Alu(width, code, src) => combine(decls, kinds, insn, width, code, src),
        Op::Neg(width) => negate(kinds, insn, width),
        Op::End(src) => order(kinds, insn, src),
        Op::Swap => swap(kinds, insn),
        _ => Err(Why::Instruction),
    }
}

// The bounds of a new base.
fn based(offsets: Offsets, width: Width, code: AluCode, a: Kind, b: Kind) -> Option<Bounds>
    ensures { result ≡ based offsets width code a b }
{
    match (offsets, width, code) {
        (Offsets::Varying, Width::Bits64, AluCode::Add) => base_sum(a, b),
        _ => None,
    }
}

// Arithmetic with two operands, which may give a new base.
fn arithmetic(
    decls: &[MapDecl],
    kinds: &Kinds,
    insn: &Insn,
    width: Width,
    code: AluCode,
    src: Src,
) -> Result<Effect, Why>
    requires dst { insn.now.dst ≤ 10 }
    requires src { insn.now.src ≤ 10 }
    requires offset { unsigned_abs insn.now.offset ≤ 32 }
    ensures value { result ≡ effect_as decls.now kinds.now insn.now (Op.Alu width code src) }
    ensures inside { IfOk result IsInside }
{
    let a = kinds.registers[insn.dst as usize];
    let b = operand(kinds, insn, src);
    match based(kinds.offsets, width, code, a, b) {
        Some(bounds) => Ok(Effect::NewBase(insn.dst, bounds)),
        None => assigned(insn, combine(decls, kinds, insn, width, code, src)),
    }
}

/// The condition of a jump.
pub(crate) fn jump(
    kinds: &Kinds,
    insn: &Insn,
    width: Width,
    code: JumpCode,
    src: Src,
) -> Result<Condition, Why>
    requires dst { insn.now.dst ≤ 10 }
    requires src { insn.now.src ≤ 10 }
    ensures { result ≡ jump kinds.now insn.now width code src }
{
    let a = kinds.registers[insn.dst as usize];
    let b = operand(kinds, insn, src);
    condition_of(width, code, a, b)
}

// What is asked by the operation alone.
fn effect_as(decls: &[MapDecl], kinds: &Kinds, insn: &Insn) -> Result<Effect, Why>
    requires { IsInsn insn.now }
    ensures value { result ≡ effect_as decls.now kinds.now insn.now insn.now.op }
    ensures inside { IfOk result IsInside }
{
    let dst = kinds.registers[insn.dst as usize];
    let src = kinds.registers[insn.src as usize];
    match insn.op {
        Op::Alu(width, code, s) => arithmetic(decls, kinds, insn, width, code, s),
        Op::Ja(_) => Ok(Effect::Nothing),
        Op::Jump(width, code, s) => Ok(Effect::Compared(jump(kinds, insn, width, code, s)?)),
        Op::Call => called(decls, kinds, insn.imm, Helper::of(insn.imm)),
        Op::Exit => {
            number_in(kinds.registers[0])?;
            Ok(Effect::Nothing)
        }
        Op::LoadImm => Ok(Effect::Constant(insn.dst, insn.imm)),
        Op::Load(size) => assigned(insn, loaded_plain(decls, kinds, src, insn.offset, size)),
        Op::LoadSigned(size) => {
            assigned(insn, loaded_signed(decls, kinds, src, insn.offset, size))
        }
        Op::StoreImm(size) => stored(decls, kinds, dst, insn.offset, size, immediate(insn)),
        Op::Store(size) => stored(decls, kinds, dst, insn.offset, size, src),
        Op::Atomic(size) => atomic(decls, kinds, insn, size),
        _ => assigned(insn, alu(decls, kinds, insn)),
    }
}

/// What an instruction does to kinds, or the first test that it fails.
#[tactic(auto, unfolding(crate::specs::Effects::effect_of))]
pub(crate) fn effect_of(decls: &[MapDecl], kinds: &Kinds, insn: &Insn) -> Result<Effect, Why>
    requires { IsInsn insn.now }
    ensures value { result ≡ effect_of decls.now kinds.now insn.now }
    ensures inside { IfOk result IsInside }
{
    profiled(insn, kinds)?;
    effect_as(decls, kinds, insn)
}
