// Instructions that change registers alone.

ghost use Rattle.std.specs.Prelude.{◌≡◌, ◌≤◌, [], unsigned_abs};
ghost use Rattle.std.specs.Option.{option_map};
ghost use Rattle.xdp_machine.specs.bpf_isa.Spelling.{IsInsn};
ghost use Rattle.xdp_machine.specs.bpf_isa.Rules.{Allows};
ghost use Rattle.xdp_machine.specs.bpf_isa.declared.fields.Rule.TheVariants.{SwapBits};
ghost use Rattle.xdp_machine.specs.Pointers.{compared};
ghost use Rattle.xdp_machine.specs.State.{register};
ghost use Rattle.xdp_machine.specs.Arithmetic.{negated, ordered, bits_in};
ghost use Rattle.xdp_machine.specs.Step.{operand, assigned, renumbered, alu};
ghost use Rattle.xdp_state.specs.Views.{value_of};
ghost use Rattle.xdp_state.specs.Cases.{Makes};

use crate::arithmetic::{negated, ordered};
use crate::pointers::{combined, compared, number_in};
use crate::registers::Registers;
use crate::value::Value;
use xdp_machine::bpf_isa::{AluCode, Insn, JumpCode, Op, Src, Width};

/// The immediate number in 64 bits.
pub fn immediate(insn: &Insn) -> Value
    ensures { value_of result ≡ operand [] insn.now Src.K }
{
    Value::Number(insn.imm.cast_unsigned())
}

// The second operand, which may be the immediate number.
fn operand<'a>(registers: &'a Registers, insn: &Insn, src: Src, number: &'a Value) -> &'a Value
    requires src { insn.now.src ≤ 10 }
    requires number { value_of number.now ≡ operand [] insn.now Src.K }
    ensures { value_of result.now ≡ operand registers.now insn.now src }
{
    match src {
        Src::K => number,
        Src::X => registers.get(insn.src),
    }
}

/// Puts a value into the destination, if there is one.
pub fn assign(registers: &mut Registers, insn: &Insn, value: Option<Value>) -> bool
    requires { insn.now.dst ≤ 10 }
    ensures { Makes result (assigned registers.old insn.now (option_map value_of value)) registers.old registers.new }
{
    match value {
        Some(value) => registers.put(insn.dst, value),
        None => false,
    }
}

// Arithmetic with two operands.
fn combine(registers: &mut Registers, insn: &Insn, width: Width, code: AluCode, src: Src) -> bool
    requires insn { IsInsn insn.now }
    requires op { insn.now.op ≡ Op.Alu width code src }
    ensures { Makes result (alu registers.old insn.now (Op.Alu width code src)) registers.old registers.new }
{
    let number = immediate(insn);
    let a = registers.get(insn.dst);
    let b = operand(registers, insn, src, &number);
    let value = combined(width, code, insn.offset, a, b);
    assign(registers, insn, value)
}

// The number in the destination with the other sign.
fn negate(registers: &mut Registers, insn: &Insn, width: Width) -> bool
    requires { insn.now.dst ≤ 10 }
    ensures { Makes result (renumbered registers.old insn.now (negated (bits_in width))) registers.old registers.new }
{
    match number_in(registers.get(insn.dst)) {
        Some(n) => registers.put(insn.dst, Value::Number(negated(width, n))),
        None => false,
    }
}

// The low bytes of the number in the destination in an order.
fn order(registers: &mut Registers, insn: &Insn, end: Src) -> bool
    requires dst { insn.now.dst ≤ 10 }
    requires bits { Allows SwapBits insn.now.imm }
    ensures { Makes result (renumbered registers.old insn.now (ordered end (unsigned_abs insn.now.imm))) registers.old registers.new }
{
    match number_in(registers.get(insn.dst)) {
        Some(n) => {
            let number = ordered(end, insn.imm as u32, n);
            registers.put(insn.dst, Value::Number(number))
        }
        None => false,
    }
}

/// An instruction that changes registers alone.
pub fn alu(registers: &mut Registers, insn: &Insn) -> bool
    requires { IsInsn insn.now }
    ensures { Makes result (alu registers.old insn.now insn.now.op) registers.old registers.new }
{
    match insn.op {
        Op::Alu(width, code, src) => combine(registers, insn, width, code, src),
        Op::Neg(width) => negate(registers, insn, width),
        Op::End(src) => order(registers, insn, src),
        Op::Swap => order(registers, insn, Src::X),
        _ => false,
    }
}

/// Whether a jump is taken, where its condition has a meaning.
pub fn taken(
    registers: &Registers,
    insn: &Insn,
    width: Width,
    code: JumpCode,
    src: Src,
) -> Option<bool>
    requires dst { insn.now.dst ≤ 10 }
    requires src { insn.now.src ≤ 10 }
    ensures { result ≡ compared width code (register registers.now insn.now.dst) (operand registers.now insn.now src) }
{
    let number = immediate(insn);
    let a = registers.get(insn.dst);
    let b = operand(registers, insn, src, &number);
    compared(width, code, a, b)
}
