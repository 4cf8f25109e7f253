//! What stands for the operations that may write.

ghost use Rattle.std.specs.Prelude.{◌≡◌, ◌<◌, Contains, IfOk, length};
ghost use Rattle.read_net.specs.Sites.{sites_of};
ghost use Rattle.turn_net.specs.Actions.{record_sites};
ghost use Rattle.pipe_parts.specs.PipeDraft.PipelinePlan.{program_in, plan_in, IsPipelinePlan};
ghost use Rattle.pipe_parts.specs.PipeDraft.Places.{AreStageSources};
ghost use Rattle.pipe_parts.specs.TurnParts.Sites.{AreOwnLists, list_at};
ghost use Rattle.pipe_parts.specs.TurnParts.Records.{HaveTargets, targets_at, IsTargetAt, IsRecordAt, AreRecordsAt};

use crate::pipe_draft::{PipelinePlan, StageSources};
use crate::turn_parts::sites::decl_at;
use block_core::name::Name;
use hazard_core::site::site_at;
use overlay_net::cell_nets::operand::Operand;
use pipe_net::parts::Part;
use read_net::sites::OwnSite;
use std::alloc::{AllocError, Global};
use turn_net::nets::RecordNets;
use turn_net::target_net::targets::{Target, TargetPart};

// The slot that the operation at a site writes, among those at the sites of its map.
fn target_at(
    owns: &[OwnSite<'_, Name<Part>>],
    targets: &[Target<Name<Part>>],
    site: u32,
) -> Operand<Name<Part>>
    requires count { length targets.now ≡ length owns.now }
    requires there { Contains (sites_of owns.now) site }
    ensures { IsTargetAt owns.now targets.now site result }
{
    for i in 0..owns.len() {
        if owns[i].site == site {
            return targets[i].slot;
        }
    }
    Operand::Known(0)
}

// What stands for the operation at a site.
fn record_at<'a>(
    pipeline_plan: &'a PipelinePlan<'_>,
    at: &'a StageSources,
    owns: &[Vec<OwnSite<'_, Name<Part>>>],
    targets: &[TargetPart<Part>],
    site: u32,
) -> RecordNets<'a, Name<Part>>
    requires pipeline_plan { IsPipelinePlan pipeline_plan.now }
    requires at { AreStageSources pipeline_plan.now (plan_in pipeline_plan.now).commit at.now }
    requires owns { AreOwnLists pipeline_plan.now at.now owns.now }
    requires targets { HaveTargets pipeline_plan.now (list_at owns.now) targets.now }
    requires site { Contains (record_sites (program_in pipeline_plan.now)) site }
    requires known { site < length (program_in pipeline_plan.now).sites }
    ensures number { result.number ≡ site }
    ensures record { IsRecordAt pipeline_plan.now at.now (list_at owns.now) (targets_at targets.now) result }
{
    let here = site_at(pipeline_plan.program, site as usize);
    let map = here.map as usize;
    RecordNets {
        number: site,
        act: here.act,
        decl: decl_at(pipeline_plan, site),
        nets: &at.sites[site as usize],
        target: target_at(&owns[map], &targets[map].targets, site),
    }
}

/// What stands for all of them, in the order of their sites: by the operands of sites after the commit place, and by the parts that say what the operations on
/// each map write.
pub(crate) fn records_at<'a>(
    alloc: Global,
    pipeline_plan: &'a PipelinePlan<'_>,
    at: &'a StageSources,
    owns: &[Vec<OwnSite<'_, Name<Part>>>],
    targets: &[TargetPart<Part>],
) -> Result<Vec<RecordNets<'a, Name<Part>>>, AllocError>
    requires pipeline_plan { IsPipelinePlan pipeline_plan.now }
    requires at { AreStageSources pipeline_plan.now (plan_in pipeline_plan.now).commit at.now }
    requires owns { AreOwnLists pipeline_plan.now at.now owns.now }
    requires targets { HaveTargets pipeline_plan.now (list_at owns.now) targets.now }
    ensures { IfOk result (λ records. AreRecordsAt pipeline_plan.now at.now (list_at owns.now) (targets_at targets.now) records.items) }
{
    let mut records = Vec::new(alloc);
    for i in 0..pipeline_plan.records.len() {
        let record = record_at(pipeline_plan, at, owns, targets, pipeline_plan.records[i]);
        records.push(record)?;
    }
    Ok(records)
}
