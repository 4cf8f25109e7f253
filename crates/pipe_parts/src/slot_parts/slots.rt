//! The parts that show the slots of maps.

ghost use Rattle.std.specs.Prelude.{◌≡◌, ◌<◌, [], IfOk, length};
ghost use Rattle.block_core.specs.View.{block_of};
ghost use Rattle.hazard_core.specs.xdp_maps.declared.decl.MapKind.TheVariants.{Hash, Array};
ghost use Rattle.commit_net.specs.MapBlock.Forms.{FormFits};
ghost use Rattle.overlay_net.specs.cell_nets.OperandBlocks.Wiring.{wires_block};
ghost use Rattle.hash_net.specs.SlotNet.Shown.{shown_slots, IsSlots};
ghost use Rattle.hash_net.specs.SlotNet.Slots.{slots_of};
ghost use Rattle.pipe_net.specs.Parts as part;
ghost use Rattle.pipe_net.specs.Parts.{IsSmall};
ghost use Rattle.pipe_parts.specs.PipeDraft.PipelinePlan.{IsPipelinePlan};
ghost use Rattle.pipe_parts.specs.SlotParts.Slots.{IsSlotsPartIn, AreSlotsParts};

use crate::pipe_draft::PipelinePlan;
use block_core::block::Block;
use block_core::name::Name;
use commit_net::map_block::MapForm;
use hash_net::slot_net::shown::{shown_slots, slots};
use hash_net::slot_net::slots::SlotNets;
use hazard_core::cell_core::xdp_state::xdp_maps::decl::MapKind;
use overlay_net::cell_nets::operand_blocks::wiring::wiring;
use pipe_net::parts::{Part, Sizes};
use std::alloc::{AllocError, Global};

/// The block of a part that shows the slots of a map, with what shows each of them. Of an array there is nothing to show.
#[derive(Drop)]
pub struct SlotsPart {
    pub block: Block<Name<Part>>,
    pub slots: Vec<SlotNets<Name<Part>>>,
}

// The part of a hash: a wire for each used bit, and for each word of a key.
fn hash_part(alloc: Global, sizes: &Sizes, form: &MapForm, m: u32) -> Result<SlotsPart, AllocError>
    requires small { IsSmall sizes.now }
    requires map { m < sizes.now.maps }
    requires form_fits { FormFits form.now }
    ensures block { IfOk result (λ r. IsSlots (part.slots sizes.now m) (part.own sizes.now m) form.now.decl form.now.bits (block_of r.block)) }
    ensures slots { IfOk result (λ r. slots_of r.slots.items ≡ shown_slots (part.slots sizes.now m) form.now.decl) }
{
    let part = sizes.slots(m);
    let block = slots(alloc, part, sizes.own(m), &form.decl, form.bits)?;
    let slots = shown_slots(alloc, part, &form.decl)?;
    Ok(SlotsPart { block, slots })
}

// The part of an array, without a wire.
fn array_part(alloc: Global) -> Result<SlotsPart, AllocError>
    ensures block { IfOk result (λ r. block_of r.block ≡ wires_block []) }
    ensures slots { IfOk result (λ r. r.slots.items ≡ []) }
{
    let block = wiring(alloc, Vec::new(alloc))?;
    let slots = Vec::new(alloc);
    Ok(SlotsPart { block, slots })
}

/// The part that shows the slots of a map.
pub fn slots_part(
    alloc: Global,
    pipeline_plan: &PipelinePlan<'_>,
    m: u32,
) -> Result<SlotsPart, AllocError>
    requires pipeline_plan { IsPipelinePlan pipeline_plan.now }
    requires map { m < length pipeline_plan.now.forms.items }
    ensures { IfOk result (IsSlotsPartIn pipeline_plan.now m) }
{
    let form = &pipeline_plan.forms[m as usize];
    match form.decl.kind {
        MapKind::Hash => {
            let part = hash_part(alloc, &pipeline_plan.sizes, form, m)?;
            Ok(part)
        }
        MapKind::Array => {
            let part = array_part(alloc)?;
            Ok(part)
        }
    }
}

/// The parts of all maps, in their order.
pub fn slots_parts(
    alloc: Global,
    pipeline_plan: &PipelinePlan<'_>,
) -> Result<Vec<SlotsPart>, AllocError>
    requires { IsPipelinePlan pipeline_plan.now }
    ensures { IfOk result (λ parts. AreSlotsParts pipeline_plan.now parts.items) }
{
    let mut parts = Vec::new(alloc);
    for m in 0..pipeline_plan.sizes.maps {
        parts.push(slots_part(alloc, pipeline_plan, m)?)?;
    }
    Ok(parts)
}
