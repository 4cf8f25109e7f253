// Opcodes and what they name (RFC 9669, sections 3.3, 4 and 5).

ghost use Rattle.std.specs.Prelude.{◌≡◌, ℕ, ◌+◌, ◌*◌, ◌<◌, IfSome};
ghost use Rattle.bpf_isa.specs.Opcode.{alu_number, jump_number, size_number, code_of, compute, access, alu_class, jump_class, src_number};
ghost use Rattle.bpf_isa.specs.declared.operation.AluCode.{AluCode};
ghost use Rattle.bpf_isa.specs.declared.operation.JumpCode.{JumpCode};
ghost use Rattle.bpf_isa.specs.declared.operation.Op.{Op};

use crate::operation::{AluCode, JumpCode, Op, Size, Src, Width};

/// The operation of an opcode, if it has one.
pub fn op_of(code: u8) -> Option<Op>
    ensures some { IfSome result (λ op. code_of op ≡ code) }
    ensures only { (op : Op) → code_of op ≡ code → result ≡ Some op }
{
    match code % 8 {
        4 => arithmetic(Width::Bits32, code / 8 % 2, code / 16),
        7 => arithmetic(Width::Bits64, code / 8 % 2, code / 16),
        5 => jump(Width::Bits64, code / 8 % 2, code / 16),
        6 => jump(Width::Bits32, code / 8 % 2, code / 16),
        class => memory(class, size_of_number(code / 8 % 4), code / 32),
    }
}

fn arithmetic(width: Width, bit: u8, code: u8) -> Option<Op>
    requires { bit < 2 }
    ensures some { IfSome result (λ op. code_of op ≡ compute (alu_class width) bit code) }
    ensures only { (op : Op) → code_of op ≡ compute (alu_class width) bit code → result ≡ Some op }
{
    let src = if bit == 0 { Src::K } else { Src::X };
    match (code, width, src) {
        (0x8, _, Src::K) => Some(Op::Neg(width)),
        (0xd, Width::Bits32, _) => Some(Op::End(src)),
        (0xd, Width::Bits64, Src::K) => Some(Op::Swap),
        _ => Some(Op::Alu(width, alu_of_number(code)?, src)),
    }
}

fn jump(width: Width, bit: u8, code: u8) -> Option<Op>
    requires { bit < 2 }
    ensures some { IfSome result (λ op. code_of op ≡ compute (jump_class width) bit code) }
    ensures only { (op : Op) → code_of op ≡ compute (jump_class width) bit code → result ≡ Some op }
{
    let src = if bit == 0 { Src::K } else { Src::X };
    match (code, width, src) {
        (0x0, _, Src::K) => Some(Op::Ja(width)),
        (0x8, Width::Bits64, Src::K) => Some(Op::Call),
        (0x9, Width::Bits64, Src::K) => Some(Op::Exit),
        _ => Some(Op::Jump(width, jump_of_number(code)?, src)),
    }
}

fn memory(class: u8, size: Size, mode: u8) -> Option<Op>
    requires { class < 4 }
    ensures some { IfSome result (λ op. code_of op ≡ access class size mode) }
    ensures only { (op : Op) → code_of op ≡ access class size mode → result ≡ Some op }
{
    match (class, mode, size) {
        (0, 0, Size::Dw) => Some(Op::LoadImm),
        (0, 1, _) => Some(Op::Abs(size)),
        (0, 2, _) => Some(Op::Ind(size)),
        (1, 3, _) => Some(Op::Load(size)),
        (1, 4, _) => Some(Op::LoadSigned(size)),
        (2, 3, _) => Some(Op::StoreImm(size)),
        (3, 3, _) => Some(Op::Store(size)),
        (3, 6, _) => Some(Op::Atomic(size)),
        _ => None,
    }
}

fn alu_of_number(code: u8) -> Option<AluCode>
    ensures some { IfSome result (λ c. alu_number c ≡ code) }
    ensures only { (c : AluCode) → alu_number c ≡ code → result ≡ Some c }
{
    match code {
        0x0 => Some(AluCode::Add),
        0x1 => Some(AluCode::Sub),
        0x2 => Some(AluCode::Mul),
        0x3 => Some(AluCode::Div),
        0x4 => Some(AluCode::Or),
        0x5 => Some(AluCode::And),
        0x6 => Some(AluCode::Lsh),
        0x7 => Some(AluCode::Rsh),
        0x9 => Some(AluCode::Mod),
        0xa => Some(AluCode::Xor),
        0xb => Some(AluCode::Mov),
        0xc => Some(AluCode::Arsh),
        _ => None,
    }
}

fn jump_of_number(code: u8) -> Option<JumpCode>
    ensures some { IfSome result (λ c. jump_number c ≡ code) }
    ensures only { (c : JumpCode) → jump_number c ≡ code → result ≡ Some c }
{
    match code {
        0x1 => Some(JumpCode::Jeq),
        0x2 => Some(JumpCode::Jgt),
        0x3 => Some(JumpCode::Jge),
        0x4 => Some(JumpCode::Jset),
        0x5 => Some(JumpCode::Jne),
        0x6 => Some(JumpCode::Jsgt),
        0x7 => Some(JumpCode::Jsge),
        0xa => Some(JumpCode::Jlt),
        0xb => Some(JumpCode::Jle),
        0xc => Some(JumpCode::Jslt),
        0xd => Some(JumpCode::Jsle),
        _ => None,
    }
}

fn size_of_number(bits: u8) -> Size
    requires { bits < 4 }
    ensures { size_number result ≡ bits }
{
    match bits {
        0 => Size::W,
        1 => Size::H,
        2 => Size::B,
        _ => Size::Dw,
    }
}

/// The opcode of an operation.
pub fn opcode_of(op: Op) -> u8
    ensures { result ≡ code_of op }
{
    match op {
        Op::Alu(w, c, s) => alu_class(w) + 8 * src_bit(s) + 16 * alu_number(c),
        Op::Neg(w) => alu_class(w) + 0x80,
        Op::End(s) => 0xd4 + 8 * src_bit(s),
        Op::Swap => 0xd7,
        Op::Ja(w) => jump_class(w),
        Op::Jump(w, c, s) => jump_class(w) + 8 * src_bit(s) + 16 * jump_number(c),
        Op::Call => 0x85,
        Op::Exit => 0x95,
        Op::LoadImm => 0x18,
        Op::Abs(size) => 0x20 + size_bits(size),
        Op::Ind(size) => 0x40 + size_bits(size),
        Op::Load(size) => 0x61 + size_bits(size),
        Op::LoadSigned(size) => 0x81 + size_bits(size),
        Op::StoreImm(size) => 0x62 + size_bits(size),
        Op::Store(size) => 0x63 + size_bits(size),
        Op::Atomic(size) => 0xc3 + size_bits(size),
    }
}

fn alu_class(width: Width) -> u8
    ensures { result ≡ alu_class width }
{
    match width {
        Width::Bits32 => 4,
        Width::Bits64 => 7,
    }
}

fn jump_class(width: Width) -> u8
    ensures { result ≡ jump_class width }
{
    match width {
        Width::Bits32 => 6,
        Width::Bits64 => 5,
    }
}

fn src_bit(src: Src) -> u8
    ensures { result ≡ src_number src }
{
    match src {
        Src::K => 0,
        Src::X => 1,
    }
}

fn size_bits(size: Size) -> u8
    ensures { result ≡ 8 * size_number size }
{
    match size {
        Size::W => 0x00,
        Size::H => 0x08,
        Size::B => 0x10,
        Size::Dw => 0x18,
    }
}

fn alu_number(code: AluCode) -> u8
    ensures value { result ≡ alu_number code }
    ensures four_bits { result < 16 }
{
    match code {
        AluCode::Add => 0x0,
        AluCode::Sub => 0x1,
        AluCode::Mul => 0x2,
        AluCode::Div => 0x3,
        AluCode::Or => 0x4,
        AluCode::And => 0x5,
        AluCode::Lsh => 0x6,
        AluCode::Rsh => 0x7,
        AluCode::Mod => 0x9,
        AluCode::Xor => 0xa,
        AluCode::Mov => 0xb,
        AluCode::Arsh => 0xc,
    }
}

fn jump_number(code: JumpCode) -> u8
    ensures value { result ≡ jump_number code }
    ensures four_bits { result < 16 }
{
    match code {
        JumpCode::Jeq => 0x1,
        JumpCode::Jgt => 0x2,
        JumpCode::Jge => 0x3,
        JumpCode::Jset => 0x4,
        JumpCode::Jne => 0x5,
        JumpCode::Jsgt => 0x6,
        JumpCode::Jsge => 0x7,
        JumpCode::Jlt => 0xa,
        JumpCode::Jle => 0xb,
        JumpCode::Jslt => 0xc,
        JumpCode::Jsle => 0xd,
    }
}
