//! What stands where before any step.

ghost use Rattle.std.specs.Prelude.{◌≡◌, ◌<◌, [], ◌∷◌, OnOk, IfOk, IsTrue};
ghost use Rattle.std.proofs.Common.{get_or};
ghost use Rattle.net_core.specs.Width.{declared_typed};
ghost use Rattle.clock_sim.specs.Layouts.{IsLayout, AddsItem, port_operands, port_widths};

use crate::builder::Operand;
use crate::memory::MemoryWords;
use crate::operands::Widths;
use net_core::design::Declared;
use net_core::ports::{PORT_COUNT, PORTS};
use net_core::scope::port_width;
use std::alloc::{AllocError, Global};

/// The operands and first numbers of what is declared.
#[derive(Drop)]
pub struct Layout {
    pub registers: Vec<Operand>,
    pub memories: Vec<Widths>,
    pub numbers: Vec<u64>,
    pub contents: Vec<MemoryWords>,
}

fn operand(slot: u32, width: u8) -> Operand
    ensures { result ≡ record { slot = slot; width = width } }
{
    Operand { slot, width }
}

// The width that is read of a port.
#[tactic(auto, using(crate::proofs::LayoutLemmas::port_width_at))]
fn width_at(port: usize) -> u8
    requires { port < PORT_COUNT }
    ensures { result ≡ get_or port_widths port 0 }
{
    port_width(&PORTS, port as u32)
}

/// The operands of the ports: their words stand in the first slots, and those of the registers after them.
pub fn port_operands_of(alloc: Global) -> Result<Vec<Operand>, AllocError>
    ensures { IfOk result (λ v. v.items ≡ port_operands) }
{
    let mut all = Vec::new(alloc);
    for port in 0..PORT_COUNT {
        all.push(operand(port as u32, width_at(port)))?;
    }
    Ok(all)
}

// Adds what a register or a memory needs.
fn add_item(alloc: Global, d: &Declared, layout: &mut Layout) -> Result<(), AllocError>
    requires { IsTrue (declared_typed (d.now ∷ [])) }
    ensures { OnOk result (AddsItem d.now layout.old layout.new) }
{
    match d {
        Declared::Integer => Ok(()),
        Declared::Register(word) => {
            let Ok(slot) = u32::try_from(PORT_COUNT + layout.registers.len()) else {
                return Err(AllocError);
            };
            let width = word.width;
            layout.registers.push(Operand { slot, width })?;
            layout.numbers.push(word.value)?;
            Ok(())
        }
        Declared::Memory { index, first, .. } => {
            let index = *index;
            let word = first.width;
            layout.memories.push(Widths { index, word })?;
            let memory = MemoryWords::new(alloc, index, first.value)?;
            layout.contents.push(memory)?;
            Ok(())
        }
    }
}

/// The operands and first numbers of registers and memories.
pub fn layout_of(alloc: Global, declared: &[Declared]) -> Result<Layout, AllocError>
    requires { IsTrue (declared_typed declared.now) }
    ensures { IfOk result (λ l. IsLayout declared.now l) }
{
    let mut layout = Layout {
        registers: Vec::new(alloc),
        memories: Vec::new(alloc),
        numbers: Vec::new(alloc),
        contents: Vec::new(alloc),
    };
    for d in declared {
        add_item(alloc, d, &mut layout)?;
    }
    Ok(layout)
}
