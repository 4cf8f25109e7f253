//! Operands: where the words of nets stand.

ghost use Rattle.std.specs.Prelude.{◌≡◌, ◌<◌};
ghost use Rattle.clock_sim.specs.Flat.{operand_in, widths_in};

use crate::builder::Operand;
use net_core::tree::Net;

/// The widths of a memory's index and of its words.
#[derive(Clone, Copy, PartialEq, Eq, Debug)]
pub struct Widths {
    pub index: u8,
    pub word: u8,
}

/// The operands of ports, registers and wires by their numbers, and the widths of memories. What cannot be read has
/// width 0.
#[derive(Drop)]
pub struct Operands {
    pub ports: Vec<Operand>,
    pub registers: Vec<Operand>,
    pub memories: Vec<Widths>,
    pub wires: Vec<Operand>,
}

/// Where the word of a net stands that can be read.
pub fn operand_of(operands: &Operands, net: Net) -> Operand
    requires { 0 < (operand_in operands.now net).width }
    ensures { result ≡ operand_in operands.now net }
{
    match net {
        Net::Port(i) => operands.ports[i as usize],
        Net::Register(i) => operands.registers[i as usize],
        Net::Wire(i) => operands.wires[i as usize],
        Net::Memory(_) => unreachable!(),
    }
}

/// The width of a memory's words.
pub fn word_width(operands: &Operands, memory: u32) -> u8
    requires { 0 < (widths_in operands.now (Net.Memory memory)).word }
    ensures { result ≡ (widths_in operands.now (Net.Memory memory)).word }
{
    operands.memories[memory as usize].word
}
