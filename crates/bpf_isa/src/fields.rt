// Which fields an operation uses, and what they may hold (RFC 9669, sections 4 and 5).

ghost use Rattle.std.specs.Prelude.{◌≡◌, ◌↔◌, IsTrue};
ghost use Rattle.bpf_isa.specs.Rules.{Allows, rules_of, IsSized};

use crate::operation::{AluCode, Op, Size, Src, Width};

/// What a field may hold.
#[derive(Copy, Clone, Debug, PartialEq, Eq)]
pub enum Rule {
    /// Zero, since the operation does not read it.
    Unused,
    /// Anything.
    Used,
    /// A number from 0 up to this one.
    UpTo(u8),
    /// 1 where a division is signed.
    Signed,
    /// The bits that a MOV of class ALU extends, or 0.
    Extension32,
    /// The same in class ALU64.
    Extension64,
    /// The bits of a byte swap.
    SwapBits,
    /// The numbers of the atomic operations.
    Atomics,
}

/// What each field of an operation may hold.
#[derive(Copy, Clone, Debug, PartialEq, Eq)]
pub struct Rules {
    pub dst: Rule,
    pub src: Rule,
    pub offset: Rule,
    pub imm: Rule,
}

impl Rules {
    const fn new(dst: Rule, src: Rule, offset: Rule, imm: Rule) -> Self
        ensures { result ≡ record { dst = dst; src = src; offset = offset; imm = imm } }
    {
        Rules {
            dst,
            src,
            offset,
            imm,
        }
    }
}

/// Whether the rule allows the number.
pub fn allows(rule: Rule, number: i64) -> bool
    ensures { IsTrue result ↔ Allows rule number }
{
    match rule {
        Rule::Unused => number == 0,
        Rule::Used => true,
        Rule::UpTo(last) => 0 <= number && number <= i64::from(last),
        Rule::Signed => matches!(number, 0 | 1),
        Rule::Extension32 => matches!(number, 0 | 8 | 16),
        Rule::Extension64 => matches!(number, 0 | 8 | 16 | 32),
        Rule::SwapBits => matches!(number, 16 | 32 | 64),
        Rule::Atomics => matches!(
            number,
            0x00 | 0x01 | 0x40 | 0x41 | 0x50 | 0x51 | 0xa0 | 0xa1 | 0xe1 | 0xf1
        ),
    }
}

/// What the fields of an operation may hold.
pub fn rules_of(op: Op) -> Rules
    ensures { result ≡ rules_of op }
{
    use Rule::{Atomics, Extension32, Extension64, Signed, Unused, UpTo, Used};

    match op {
        Op::Alu(_, AluCode::Div | AluCode::Mod, Src::K) => Rules::new(Used, Unused, Signed, Used),
        Op::Alu(_, AluCode::Div | AluCode::Mod, Src::X) => Rules::new(Used, Used, Signed, Unused),
        Op::Alu(Width::Bits32, AluCode::Mov, Src::X) => {
            Rules::new(Used, Used, Extension32, Unused)
        }
        Op::Alu(Width::Bits64, AluCode::Mov, Src::X) => {
            Rules::new(Used, Used, Extension64, Unused)
        }
        Op::Alu(_, _, Src::K) => Rules::new(Used, Unused, Unused, Used),
        Op::Alu(_, _, Src::X) => Rules::new(Used, Used, Unused, Unused),
        Op::Neg(_) => Rules::new(Used, Unused, Unused, Unused),
        Op::End(_) | Op::Swap => Rules::new(Used, Unused, Unused, Rule::SwapBits),
        Op::Ja(Width::Bits64) => Rules::new(Unused, Unused, Used, Unused),
        Op::Ja(Width::Bits32) => Rules::new(Unused, Unused, Unused, Used),
        Op::Jump(_, _, Src::K) => Rules::new(Used, Unused, Used, Used),
        Op::Jump(_, _, Src::X) => Rules::new(Used, Used, Used, Unused),
        Op::Call => Rules::new(Unused, UpTo(2), Unused, Used),
        Op::Exit => Rules::new(Unused, Unused, Unused, Unused),
        Op::LoadImm => Rules::new(Used, UpTo(6), Unused, Used),
        Op::Abs(_) => Rules::new(Unused, Unused, Unused, Used),
        Op::Ind(_) => Rules::new(Unused, Used, Unused, Used),
        Op::Load(_) | Op::LoadSigned(_) => Rules::new(Used, Used, Used, Unused),
        Op::StoreImm(_) => Rules::new(Used, Unused, Used, Used),
        Op::Store(_) => Rules::new(Used, Used, Used, Unused),
        Op::Atomic(_) => Rules::new(Used, Used, Used, Atomics),
    }
}

/// Whether the operation has this size of access.
pub fn is_sized(op: Op) -> bool
    ensures { IsTrue result ↔ IsSized op }
{
    !matches!(
        op,
        Op::Abs(Size::Dw)
            | Op::Ind(Size::Dw)
            | Op::LoadSigned(Size::Dw)
            | Op::Atomic(Size::B)
            | Op::Atomic(Size::H)
    )
}
