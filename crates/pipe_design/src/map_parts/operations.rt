//! What stands for the operations on a map.

ghost use Rattle.std.specs.Prelude.{◌≡◌, IfOk, length};
ghost use Rattle.turn_net.specs.Actions.{record_sites};
ghost use Rattle.pipe_net.specs.PipeTurns.Maps.{records_on};
ghost use Rattle.pipe_parts.specs.PipeDraft.PipelinePlan.{program_in, IsPipelinePlan};
ghost use Rattle.pipe_design.specs.MapParts.Operations.{AreOperations};

use block_core::name::Name;
use commit_net::choosing::CommitNets;
use hazard_core::site::site_at;
use overlay_net::cell_nets::operand::Operand;
use overlay_net::site_operands::SiteNets;
use pipe_net::parts::Part;
use pipe_parts::pipe_draft::PipelinePlan;
use std::alloc::{AllocError, Global};
use turn_net::target_net::targets::Target;

/// What stands for the operations at the record sites of a map, by the operands of all sites, by whether each record site commits, and by what those of the map write.
pub(crate) fn operations<'a>(
    alloc: Global,
    pipeline_plan: &PipelinePlan<'_>,
    sites: &'a [SiteNets<Name<Part>>],
    chosen: &[Operand<Name<Part>>],
    targets: &[Target<Name<Part>>],
    map: u32,
) -> Result<Vec<CommitNets<'a, Name<Part>>>, AllocError>
    requires pipeline_plan { IsPipelinePlan pipeline_plan.now }
    requires sites { length sites.now ≡ length (program_in pipeline_plan.now).sites }
    requires chosen { length chosen.now ≡ length (record_sites (program_in pipeline_plan.now)) }
    requires targets { length targets.now ≡ length (records_on (program_in pipeline_plan.now) map) }
    ensures { IfOk result (λ all. AreOperations (program_in pipeline_plan.now) sites.now chosen.now targets.now map all.items) }
{
    let mut all = Vec::new(alloc);
    for place in 0..pipeline_plan.records.len() {
        let number = pipeline_plan.records[place] as usize;
        let site = site_at(pipeline_plan.program, number);
        if site.map == map {
            let target = targets[all.len()];
            all.push(CommitNets {
                act: site.act,
                nets: &sites[number],
                chosen: chosen[place],
                target: target.slot,
                makes: target.makes,
            })?;
        }
    }
    Ok(all)
}
