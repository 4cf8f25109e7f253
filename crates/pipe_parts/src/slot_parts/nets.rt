//! What stands for the maps of a program.

ghost use Rattle.std.specs.Prelude.{◌≡◌, ◌+◌, ◌<◌, IfOk, length};
ghost use Rattle.hazard_core.specs.xdp_maps.declared.decl.MapKind.TheVariants.{Hash, Array};
ghost use Rattle.hash_net.specs.Hash.{count_name};
ghost use Rattle.commit_net.specs.MapBlock.Forms.{FormFits};
ghost use Rattle.pipe_net.specs.Parts as part;
ghost use Rattle.pipe_net.specs.Parts.{IsSmall};
ghost use Rattle.pipe_parts.specs.PipeDraft.PipelinePlan.{IsPipelinePlan};
ghost use Rattle.pipe_parts.specs.SlotParts.Slots.{IsSlotsPartIn, AreSlotsParts};
ghost use Rattle.pipe_parts.specs.SlotParts.Nets.{IsMapIn, AreMapNets};

use crate::pipe_draft::PipelinePlan;
use crate::slot_parts::slots::SlotsPart;
use block_core::name::Name;
use commit_net::map_block::MapForm;
use hash_net::count_name;
use hazard_core::cell_core::xdp_state::xdp_maps::decl::MapKind;
use overlay_net::cell_nets::operand::Operand;
use pipe_net::parts::{Part, Sizes};
use read_net::sites::MapNets;
use std::alloc::{AllocError, Global};

// What stands for how many slots of a map are used: of a hash the register that counts them, of an array nothing.
fn used(sizes: &Sizes, form: &MapForm, m: u32) -> Operand<Name<Part>>
    requires small { IsSmall sizes.now }
    requires map { m < sizes.now.maps }
    requires form_fits { FormFits form.now }
    ensures hash { form.now.decl.kind ≡ Hash → result ≡ Operand.Net (count_name (part.own sizes.now m)) (form.now.bits + 1) }
    ensures array { form.now.decl.kind ≡ Array → result ≡ Operand.Known 0 }
{
    match form.decl.kind {
        MapKind::Hash => Operand::Net(count_name(sizes.own(m)), form.bits + 1),
        MapKind::Array => Operand::Known(0),
    }
}

// What stands for a map, by the part that shows its slots.
fn nets_of<'a>(
    pipeline_plan: &'a PipelinePlan<'_>,
    part: &'a SlotsPart,
    m: u32,
) -> MapNets<'a, Name<Part>>
    requires pipeline_plan { IsPipelinePlan pipeline_plan.now }
    requires map { m < length pipeline_plan.now.forms.items }
    requires part { IsSlotsPartIn pipeline_plan.now m part.now }
    ensures { IsMapIn pipeline_plan.now m result }
{
    let form = &pipeline_plan.forms[m as usize];
    MapNets {
        decl: &form.decl,
        slots: &part.slots,
        used: used(&pipeline_plan.sizes, form, m),
        bits: pipeline_plan.bits,
    }
}

/// What stands for each map, by the parts that show their slots.
pub fn map_nets<'a>(
    alloc: Global,
    pipeline_plan: &'a PipelinePlan<'_>,
    parts: &'a [SlotsPart],
) -> Result<Vec<MapNets<'a, Name<Part>>>, AllocError>
    requires pipeline_plan { IsPipelinePlan pipeline_plan.now }
    requires parts { AreSlotsParts pipeline_plan.now parts.now }
    ensures { IfOk result (λ nets. AreMapNets pipeline_plan.now nets.items) }
{
    let mut nets = Vec::new(alloc);
    for m in 0..pipeline_plan.sizes.maps {
        nets.push(nets_of(pipeline_plan, &parts[m as usize], m))?;
    }
    Ok(nets)
}
