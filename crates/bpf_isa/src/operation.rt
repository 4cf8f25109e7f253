// What an instruction does.

/// The second operand of arithmetic and of conditional jumps (RFC 9669, section 4).
#[derive(Copy, Clone, Debug, PartialEq, Eq)]
pub enum Src {
    /// The immediate number.
    K,
    /// The source register.
    X,
}

/// The bytes of an access: 1, 2, 4 or 8 (section 5).
#[derive(Copy, Clone, Debug, PartialEq, Eq)]
pub enum Size {
    B,
    H,
    W,
    Dw,
}

/// The bits that arithmetic or a jump works on: the classes ALU and JMP32, or ALU64 and JMP.
#[derive(Copy, Clone, Debug, PartialEq, Eq)]
pub enum Width {
    Bits32,
    Bits64,
}

/// Arithmetic with two operands (section 4.1).
#[derive(Copy, Clone, Debug, PartialEq, Eq)]
pub enum AluCode {
    Add,
    Sub,
    Mul,
    /// Signed where the offset is 1.
    Div,
    Or,
    And,
    Lsh,
    Rsh,
    /// Signed where the offset is 1.
    Mod,
    Xor,
    /// Of a register with an offset of 8, 16 or 32, the sign of so many bits is extended.
    Mov,
    Arsh,
}

/// The condition of a jump (section 4.3).
#[derive(Copy, Clone, Debug, PartialEq, Eq)]
pub enum JumpCode {
    Jeq,
    Jgt,
    Jge,
    Jset,
    Jne,
    Jsgt,
    Jsge,
    Jlt,
    Jle,
    Jslt,
    Jsle,
}

/// The class and the code of an instruction.
#[derive(Copy, Clone, Debug, PartialEq, Eq)]
pub enum Op {
    Alu(Width, AluCode, Src),
    Neg(Width),
    /// END of class ALU: the low bits (16, 32 or 64, the immediate number) to little-endian (K) or
    /// to big-endian (X), section 4.2.
    End(Src),
    /// END of class ALU64: the bytes of the low bits in the other order.
    Swap,
    /// JA: by the offset (64 bits, class JMP) or by the immediate number (32 bits, class JMP32).
    Ja(Width),
    Jump(Width, JumpCode, Src),
    /// CALL: the source tells the kind of function, 0 to 2 (section 4.3.1).
    Call,
    Exit,
    /// The load of a number of 64 bits, in two units. The source tells what the number is, 0 to 6
    /// (section 5.4).
    LoadImm,
    /// LD ABS, legacy packet access (section 5.5).
    Abs(Size),
    /// LD IND, the same with a register.
    Ind(Size),
    /// LDX MEM (section 5.1).
    Load(Size),
    /// LDX MEMSX (section 5.2).
    LoadSigned(Size),
    /// ST MEM.
    StoreImm(Size),
    /// STX MEM.
    Store(Size),
    /// STX ATOMIC: the immediate number tells which (section 5.3).
    Atomic(Size),
}

impl Op {
    ghost use Rattle.std.specs.Prelude.{◌≡◌};
    ghost use Rattle.bpf_isa.specs.Spelling.{units_of};

    /// How many units an instruction of this operation has: 1 or 2.
    pub fn units(self) -> u8
        ensures { result ≡ units_of self }
    {
        match self {
            Op::LoadImm => 2,
            _ => 1,
        }
    }
}
