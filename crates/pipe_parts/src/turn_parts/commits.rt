//! The part that says on which map an operation commits.

ghost use Rattle.std.specs.Prelude.{◌≡◌, All, IfOk, length};
ghost use Rattle.block_core.specs.View.{block_of};
ghost use Rattle.overlay_net.specs.cell_nets.Operands.{IsOperand};
ghost use Rattle.turn_net.specs.TargetNet.Commits.{AreMaps};
ghost use Rattle.pipe_parts.specs.PipeDraft.PipelinePlan.{program_in, IsPipelinePlan};
ghost use Rattle.pipe_parts.specs.TurnParts.Records.{AreRecordsOf};
ghost use Rattle.pipe_parts.specs.TurnParts.Parts.{IsCommitsPart};

use crate::pipe_draft::PipelinePlan;
use block_core::name::Name;
use hazard_core::site::site_at;
use overlay_net::cell_nets::operand::Operand;
use pipe_net::parts::Part;
use std::alloc::{AllocError, Global};
use turn_net::nets::RecordNets;
use turn_net::target_net::commits::{CommitsPart, commits};

// The maps of the operations that may write.
fn maps_of(
    alloc: Global,
    pipeline_plan: &PipelinePlan<'_>,
    records: &[RecordNets<'_, Name<Part>>],
) -> Result<Vec<u32>, AllocError>
    requires pipeline_plan { IsPipelinePlan pipeline_plan.now }
    requires records { AreRecordsOf pipeline_plan.now records.now }
    ensures { IfOk result (λ maps. AreMaps (program_in pipeline_plan.now) maps.items records.now) }
{
    let mut maps = Vec::new(alloc);
    for i in 0..records.len() {
        let site = records[i].number;
        maps.push(site_at(pipeline_plan.program, site as usize).map)?;
    }
    Ok(maps)
}

/// The part, for the operations that may write, by whether each of them commits.
pub(crate) fn commits_part(
    alloc: Global,
    pipeline_plan: &PipelinePlan<'_>,
    records: &[RecordNets<'_, Name<Part>>],
    chosen: &[Operand<Name<Part>>],
) -> Result<CommitsPart<Part>, AllocError>
    requires pipeline_plan { IsPipelinePlan pipeline_plan.now }
    requires records { AreRecordsOf pipeline_plan.now records.now }
    requires count { length chosen.now ≡ length records.now }
    requires chosen { All IsOperand chosen.now }
    ensures { IfOk result (λ r. IsCommitsPart pipeline_plan.now records.now chosen.now r.commits.items (block_of r.block)) }
{
    let maps = maps_of(alloc, pipeline_plan, records)?;
    let count = pipeline_plan.sizes.maps;
    let made = commits(alloc, pipeline_plan.sizes.commits(), count, &maps, chosen)?;
    Ok(made)
}
