//! How the words of nets are held by a narrower design.

ghost use Rattle.std.specs.Prelude.{◌≡◌};
ghost use Rattle.std.proofs.Common.{get_or};
ghost use Rattle.net_core.specs.declared.tree.Net.{Net};
ghost use Rattle.register_rules.specs.NarrowRegisters.Narrow.{code_of, coding_of};

use crate::narrow_registers::zeros::number_at;
use net_core::tree::{Net, Word};

/// How a narrower register holds a word.
#[derive(Clone, Copy, Drop)]
pub(crate) enum Code {
    /// Without so many high bits, which are 0.
    Zeros(u8),
    /// As one bit: the second of two words where it is 1, else the first.
    Choice(Word, Word),
}

/// The code of each register, and how many high bits each wire loses.
#[derive(Drop)]
pub(crate) struct Codes {
    pub(crate) registers: Vec<Code>,
    pub(crate) wires: Vec<u8>,
}

/// The code at a place, or that of a register that loses nothing after all.
pub(crate) fn code_at(codes: &[Code], k: usize) -> Code
    ensures { result ≡ get_or codes.now k (Code.Zeros 0) }
{
    codes.get(k).copied().unwrap_or(Code::Zeros(0))
}

impl Codes {
    /// The code of a net.
    pub(crate) fn of(&self, n: Net) -> Code
        ensures { result ≡ code_of (coding_of self.now) n }
    {
        match n {
            Net::Register(k) => code_at(&self.registers, k as usize),
            Net::Wire(k) => Code::Zeros(number_at(&self.wires, k as usize)),
            Net::Port(_) | Net::Memory(_) => Code::Zeros(0),
        }
    }
}
