//! What the outputs show.

ghost use Rattle.std.specs.Prelude.{◌≡◌, length, map, OnOk, IfOk};
ghost use Rattle.net_core.specs.View.{assign_of};
ghost use Rattle.clock_sim.specs.Flat.{Adds, Extends, AreOperands};
ghost use Rattle.net_core.specs.Ports.{FitOutputs, outputs_at};
ghost use Rattle.clock_sim.specs.Edges.{AreShown, Shows, ShowsAll, IsShown, shown_in};

use crate::builder::{StepBuilder, constant};
use crate::edge::gather;
use crate::emit::value_of;
use crate::operands::Operands;
use net_core::design::Assign;
use net_core::ports::{Outputs, PORT_COUNT, outputs_at};
use std::alloc::{AllocError, Global};

// The slot of what a port shows: zero where nothing is assigned to it.
fn assigned(
    assigns: &[Assign],
    port: u32,
    operands: &Operands,
    builder: &mut StepBuilder,
) -> Result<u32, AllocError>
    requires typed { AreShown operands.now (map assign_of assigns.now) }
    requires operands { AreOperands operands.now (length builder.old.slots) }
    ensures adds { IfOk result (λ slot. Adds builder.old builder.new slot) }
    ensures shows { IfOk result (λ slot. Shows builder.old builder.new operands.now (map assign_of assigns.now) port slot) }
{
    for a in assigns {
        if a.port == port {
            let operand = value_of(&a.value, operands, builder)?;
            return Ok(operand.slot);
        }
    }
    let slot = constant(builder, 0)?;
    Ok(slot)
}

/// Adds the steps of the outputs, and gives the slot of what each port shows: an input shows zero.
pub fn add_outputs(
    alloc: Global,
    assigns: &[Assign],
    operands: &Operands,
    builder: &mut StepBuilder,
) -> Result<Vec<u32>, AllocError>
    requires typed { AreShown operands.now (map assign_of assigns.now) }
    requires operands { AreOperands operands.now (length builder.old.slots) }
    ensures extends { OnOk result (Extends builder.old builder.new) }
    ensures there { IfOk result (λ s. IsShown s.items (length builder.new.slots)) }
    ensures shows { IfOk result (λ s. ShowsAll builder.old builder.new operands.now (map assign_of assigns.now) s.items) }
{
    let mut shown = Vec::new(alloc);
    for port in 0..PORT_COUNT {
        let slot = assigned(assigns, port as u32, operands, builder)?;
        shown.push(slot)?;
    }
    Ok(shown)
}

/// What all outputs show.
pub fn show(shown: &[u32], slots: &[u64]) -> Outputs
    requires there { IsShown shown.now (length slots.now) }
    requires fit { FitOutputs (shown_in shown.now slots.now) }
    ensures { result ≡ outputs_at (shown_in shown.now slots.now) }
{
    let mut numbers = [0; PORT_COUNT];
    gather(shown, slots, &mut numbers);
    outputs_at(&numbers)
}
