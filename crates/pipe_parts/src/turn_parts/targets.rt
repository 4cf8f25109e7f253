//! The parts that say what the operations on maps write.

ghost use Rattle.std.specs.Prelude.{◌<◌, All, IfOk, length};
ghost use Rattle.std.proofs.Common.{get_or};
ghost use Rattle.overlay_net.specs.cell_nets.Operands.{IsOperand};
ghost use Rattle.commit_net.specs.Targets.{slots_of};
ghost use Rattle.commit_net.specs.declared.map_block.form.MapForm.{MapForm};
ghost use Rattle.pipe_parts.specs.declared.pipe_draft.places.StageSources.{StageSources};
ghost use Rattle.pipe_parts.specs.PipeDraft.PipelinePlan.{IsPipelinePlan};
ghost use Rattle.pipe_parts.specs.SlotParts.Nets.{IsMapIn, AreMapNets};
ghost use Rattle.pipe_parts.specs.TurnParts.Sites.{AreOwnOf, AreOwnLists, list_at};
ghost use Rattle.pipe_parts.specs.TurnParts.Records.{IsTargetPart, AreTargetParts};

use crate::pipe_draft::PipelinePlan;
use block_core::name::Name;
use commit_net::target::TakenSlot;
use pipe_net::parts::Part;
use read_net::sites::{MapNets, OwnSite};
use std::alloc::{AllocError, Global};
use turn_net::target_net::targets::{TargetPart, targets};

// The part of a map, for its record sites.
fn target_part(
    alloc: Global,
    pipeline_plan: &PipelinePlan<'_>,
    map: &MapNets<'_, Name<Part>>,
    m: u32,
    owns: &[OwnSite<'_, Name<Part>>],
    taken: &[TakenSlot<Name<Part>>],
) -> Result<TargetPart<Part>, AllocError>
    requires pipeline_plan { IsPipelinePlan pipeline_plan.now }
    requires there { m < length pipeline_plan.now.forms.items }
    requires map { IsMapIn pipeline_plan.now m map.now }
    requires owns { (b : StageSources) × AreOwnOf pipeline_plan.now b m owns.now }
    requires taken { All IsOperand (slots_of taken.now) }
    ensures { (f : MapForm) → IfOk result (IsTargetPart pipeline_plan.now m map.now owns.now taken.now (get_or pipeline_plan.now.forms.items m f)) }
{
    let part = pipeline_plan.sizes.targets(m);
    let bits = pipeline_plan.forms[m as usize].bits;
    let made = targets(alloc, part, map, bits, owns, taken)?;
    Ok(made)
}

/// The parts of all maps, by what stands for these and by their record sites.
pub(crate) fn target_parts(
    alloc: Global,
    pipeline_plan: &PipelinePlan<'_>,
    maps: &[MapNets<'_, Name<Part>>],
    owns: &[Vec<OwnSite<'_, Name<Part>>>],
    taken: &[TakenSlot<Name<Part>>],
) -> Result<Vec<TargetPart<Part>>, AllocError>
    requires pipeline_plan { IsPipelinePlan pipeline_plan.now }
    requires maps { AreMapNets pipeline_plan.now maps.now }
    requires owns { (b : StageSources) × AreOwnLists pipeline_plan.now b owns.now }
    requires taken { All IsOperand (slots_of taken.now) }
    ensures { IfOk result (λ parts. AreTargetParts pipeline_plan.now maps.now (list_at owns.now) taken.now parts.items) }
{
    let mut parts = Vec::new(alloc);
    for m in 0..pipeline_plan.sizes.maps {
        let own = &owns[m as usize];
        let part = target_part(alloc, pipeline_plan, &maps[m as usize], m, own, taken)?;
        parts.push(part)?;
    }
    Ok(parts)
}
