//! How many bits the words of nets have.

ghost use Rattle.std.specs.Prelude.{◌≡◌};
ghost use Rattle.std.proofs.Common.{get_or};
ghost use Rattle.net_rules.specs.NetSizes.Fitting.{size, sizes_of};

use net_core::ports::{HOST_WRITE, IN_LAST, IN_VALID, OUT_READY};
use net_core::tree::Net;

/// How many bits each register and each wire has, by its number: 0 where it is not known.
#[derive(Drop)]
pub struct Sizes {
    pub registers: Vec<u8>,
    pub wires: Vec<u8>,
}

// The number at a place, or 0 after all.
fn number_at(numbers: &[u8], k: usize) -> u8
    ensures { result ≡ get_or numbers.now k 0 }
{
    numbers.get(k).copied().unwrap_or(0)
}

impl Sizes {
    /// How many bits the words of a net have, or 0 where it is not known.
    pub fn of(&self, n: Net) -> u8
        ensures { result ≡ size (sizes_of self.now) n }
    {
        match n {
            Net::Register(k) => number_at(&self.registers, k as usize),
            Net::Wire(k) => number_at(&self.wires, k as usize),
            Net::Memory(_) => 0,
            Net::Port(i) => {
                if i == IN_VALID || i == IN_LAST || i == OUT_READY || i == HOST_WRITE {
                    return 1;
                }
                0
            }
        }
    }
}
