//! The names of nets.

ghost use Rattle.std.specs.Prelude.{◌≡◌, ◌^◌, ◌<◌, length, if◌then◌else◌};
ghost use Rattle.net_core.specs.Names.{is_register, is_memory, place_of, name_place};
ghost use Rattle.net_core.specs.View.{netlist_of};

use net_core::design::{Declared, Design};
use net_core::tree::Net;

// Whether it is a memory, or else whether it is a register.
fn counts(d: &Declared, memory: bool) -> bool
    ensures { result ≡ (if memory then is_memory d.now else is_register d.now) }
{
    match d {
        Declared::Integer => false,
        Declared::Register(_) => !memory,
        Declared::Memory { .. } => memory,
    }
}

// The place of a register or memory among what is declared.
fn place(declared: &[Declared], memory: bool, number: u32) -> usize
    requires { place_of (if memory then is_memory else is_register) declared.now number < 2 ^ 64 }
    ensures { result ≡ place_of (if memory then is_memory else is_register) declared.now number }
{
    let mut left = number as usize;
    for (i, d) in declared.iter().enumerate() {
        if counts(d, memory) {
            if left == 0 {
                return i;
            }
            left -= 1;
        }
    }
    declared.len() + left
}

/// The place of a net's name among a design's names.
pub fn place_in(design: &Design, net: Net) -> usize
    requires { name_place (netlist_of design.now) net < length design.now.names.items }
    ensures { result ≡ name_place (netlist_of design.now) net }
{
    match net {
        Net::Port(i) => i as usize,
        Net::Register(i) => design.ports.len() + place(&design.declared, false, i),
        Net::Memory(i) => design.ports.len() + place(&design.declared, true, i),
        Net::Wire(i) => design.ports.len() + design.declared.len() + i as usize,
    }
}
