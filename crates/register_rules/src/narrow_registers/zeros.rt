//! How many high bits nets lose.

ghost use Rattle.std.specs.Prelude.{◌≡◌};
ghost use Rattle.std.proofs.Common.{get_or};

use net_core::tree::Net;

/// How many high bits each register and each wire loses.
#[derive(Drop)]
pub(crate) struct Zeros {
    pub(crate) registers: Vec<u8>,
    pub(crate) wires: Vec<u8>,
}

/// The number at a place, or 0 after all.
pub(crate) fn number_at(numbers: &[u8], k: usize) -> u8
    ensures { result ≡ get_or numbers.now k 0 }
{
    numbers.get(k).copied().unwrap_or(0)
}

impl Zeros {
    /// How many high bits a net loses.
    pub(crate) fn of(&self, n: Net) -> u8 {
        match n {
            Net::Register(k) => number_at(&self.registers, k as usize),
            Net::Wire(k) => number_at(&self.wires, k as usize),
            Net::Port(_) | Net::Memory(_) => 0,
        }
    }

    /// The number of a register or a wire.
    pub(crate) fn of_mut(&mut self, n: Net) -> Option<&mut u8> {
        match n {
            Net::Register(k) => self.registers.get_mut(k as usize),
            Net::Wire(k) => self.wires.get_mut(k as usize),
            Net::Port(_) | Net::Memory(_) => None,
        }
    }
}
