//! What stands before an item: ports, what is declared, and some of the wires.

ghost use Rattle.std.specs.Prelude.{◌≡◌, false, count_by};
ghost use Rattle.net_core.specs.View.{netlist_of};
ghost use Rattle.net_core.specs.Names.{is_integer, is_register, is_memory};
ghost use Rattle.design_rules.specs.FormedScope as scope;

use net_core::design::{Declared, Design, Port};
use net_core::tree::Net;

/// How many integers are declared.
fn integers_of(declared: &[Declared]) -> usize
    ensures { result ≡ count_by is_integer declared.now }
{
    declared
        .iter()
        .filter(|d| match d {
            Declared::Integer => true,
            Declared::Register(_) | Declared::Memory { .. } => false,
        })
        .count()
}

/// How many registers are declared.
pub fn registers_of(declared: &[Declared]) -> usize
    ensures { result ≡ count_by is_register declared.now }
{
    declared
        .iter()
        .filter(|d| match d {
            Declared::Register(_) => true,
            Declared::Integer | Declared::Memory { .. } => false,
        })
        .count()
}

/// How many memories are declared.
pub fn memories_of(declared: &[Declared]) -> usize
    ensures { result ≡ count_by is_memory declared.now }
{
    declared
        .iter()
        .filter(|d| match d {
            Declared::Memory { .. } => true,
            Declared::Integer | Declared::Register(_) => false,
        })
        .count()
}

/// Whether the integer of a memory stands before it.
pub fn integer_known(before: &[Declared], item: &Declared) -> bool
    ensures { result ≡ scope.integer_known before.now item.now }
{
    match item {
        Declared::Integer | Declared::Register(_) => true,
        Declared::Memory { integer, .. } => (*integer as usize) < integers_of(before),
    }
}

/// Whether a port is an input other than `clk`, the first.
fn is_input(ports: &[Port], k: u32) -> bool
    ensures { result ≡ scope.is_input ports.now k }
{
    if k == 0 {
        return false;
    }
    match ports.get(k as usize) {
        Some(port) => !port.output,
        None => false,
    }
}

/// Whether a port is an output.
pub fn is_output(ports: &[Port], k: u32) -> bool
    ensures { result ≡ scope.is_output ports.now k }
{
    match ports.get(k as usize) {
        Some(port) => port.output,
        None => false,
    }
}

/// Whether a net has a value that can be read where so many wires stand before.
pub fn is_value(design: &Design, before: usize, net: Net) -> bool
    ensures { result ≡ scope.is_value (netlist_of design.now) before net }
{
    match net {
        Net::Port(k) => is_input(&design.ports, k),
        Net::Register(k) => (k as usize) < registers_of(&design.declared),
        Net::Memory(_) => false,
        Net::Wire(k) => (k as usize) < before,
    }
}

/// Whether a net is a memory, whose words can be read.
pub fn is_words(design: &Design, net: Net) -> bool
    ensures { result ≡ scope.is_words (netlist_of design.now) net }
{
    match net {
        Net::Memory(k) => (k as usize) < memories_of(&design.declared),
        Net::Port(_) | Net::Register(_) | Net::Wire(_) => false,
    }
}
