//! The width of each net of a design, where so many of its wires stand before.

ghost use Rattle.std.specs.Prelude.{◌≡◌, ◌≤◌, false, length, map, take};
ghost use Rattle.std.proofs.Common.{get_or};
ghost use Rattle.net_core.specs.View.{netlist_of, wire_of};
ghost use Rattle.net_core.specs.Width as width;
ghost use Rattle.net_core.specs.Width.{wire_widths, register_widths, memory_widths};

use crate::design::{Declared, Design, Port, Wire};
use crate::tree::Net;

/// The width of a port that can be read, or 0.
pub fn port_width(ports: &[Port], k: u32) -> u8
    ensures { result ≡ width.port_width ports.now k }
{
    if k == 0 {
        return 0;
    }
    match ports.get(k as usize) {
        Some(port) => { if port.output { 0 } else { port.width } }
        None => 0,
    }
}

/// The width of an output, or 0.
pub fn output_width(ports: &[Port], k: u32) -> u8
    ensures { result ≡ width.output_width (get_or ports.now k (record { output = false; width = 0 })) }
{
    match ports.get(k as usize) {
        Some(port) => { if port.output { port.width } else { 0 } }
        None => 0,
    }
}

/// The width of a register, or 0.
pub fn register_width(declared: &[Declared], k: u32) -> u8
    ensures { result ≡ get_or (register_widths declared.now) k 0 }
{
    let mut left = k;
    for item in declared {
        match item {
            Declared::Register(first) => {
                if left == 0 {
                    return first.width;
                }
                left -= 1;
            }
            Declared::Integer => {}
            Declared::Memory { .. } => {}
        }
    }
    0
}

/// The widths of a memory's index and of its words, or 0.
pub fn memory_width(declared: &[Declared], k: u32) -> (u8, u8)
    ensures { result ≡ get_or (memory_widths declared.now) k (0, 0) }
{
    let mut left = k;
    for item in declared {
        match item {
            Declared::Memory { index, first, .. } => {
                if left == 0 {
                    return (*index, first.width);
                }
                left -= 1;
            }
            Declared::Integer | Declared::Register(_) => {}
        }
    }
    (0, 0)
}

/// The width of a wire, or 0.
#[tactic(auto, using(crate::proofs::WireLaws::wire_widths_at, crate::proofs::WireLaws::wire_widths_past))]
fn wire_width(wires: &[Wire], k: u32) -> u8
    ensures { result ≡ get_or (wire_widths (map wire_of wires.now)) k 0 }
{
    match wires.get(k as usize) {
        Some(wire) => wire.width,
        None => 0,
    }
}

/// The width of a net that can be read where so many wires stand before, or 0.
#[tactic(auto, using(crate::proofs::WireLaws::take_wires))]
pub fn net_width(design: &Design, before: usize, net: Net) -> u8
    requires { before ≤ length design.now.wires.items }
    ensures { result ≡ width.net_width (netlist_of design.now) (take before (wire_widths (map wire_of design.now.wires.items))) net }
{
    match net {
        Net::Port(k) => port_width(&design.ports, k),
        Net::Register(k) => register_width(&design.declared, k),
        Net::Memory(_) => 0,
        Net::Wire(k) => wire_width(&design.wires[..before], k),
    }
}

/// The widths of the index and of the words of a memory, or 0.
pub fn words_width(design: &Design, net: Net) -> (u8, u8)
    ensures { result ≡ width.memory_width (netlist_of design.now) net }
{
    match net {
        Net::Memory(k) => memory_width(&design.declared, k),
        Net::Port(_) | Net::Register(_) | Net::Wire(_) => (0, 0),
    }
}
