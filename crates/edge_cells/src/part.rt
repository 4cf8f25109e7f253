//! The parts of what is held of a machine.

ghost use Rattle.std.specs.Prelude.{◌≡◌};
ghost use Rattle.edge_cells.specs.Meeting.{IsPart, held_at, kind_at, number_in};

use kind_core::number::any;
use kind_core::{Kind, Kinds, Number};
use operator_cells::held_cells::machine_cells::RegisterCells;
use xdp_machine::bpf_isa::Width;

/// A part of a machine: a register, a slot of the stack, a byte of the packet, or the target of a redirect.
#[derive(Copy, Clone)]
pub enum Part {
    Register(usize),
    Slot(usize),
    Byte(usize),
    Target,
}

/// The cell of a part, or the number of its pointer.
pub fn held_at(part: Part, held: &RegisterCells) -> u32
    requires { IsPart part }
    ensures { result ≡ held_at part held.now }
{
    match part {
        Part::Register(r) => held.registers[r],
        Part::Slot(s) => held.slots[s],
        Part::Byte(i) => held.window[i],
        Part::Target => held.target,
    }
}

/// The kind of a part: bytes of the packet and the target of a redirect are numbers that are not known.
pub fn kind_at(part: Part, kinds: &Kinds) -> Kind
    requires { IsPart part }
    ensures { result ≡ kind_at part kinds.now }
{
    match part {
        Part::Register(r) => kinds.registers[r],
        Part::Slot(s) => kinds.slots[s],
        Part::Byte(_) | Part::Target => Kind::Num(any(Width::Bits64)),
    }
}

/// What is known of a number.
pub fn number_in(kind: Kind) -> Number
    ensures { result ≡ number_in kind }
{
    match kind {
        Kind::Num(n) => n,
        _ => any(Width::Bits64),
    }
}
