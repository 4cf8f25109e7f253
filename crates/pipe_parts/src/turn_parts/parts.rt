//! The parts of actions.

ghost use Rattle.std.specs.Prelude.{◌≡◌, IfOk};
ghost use Rattle.pipe_parts.specs.PipeDraft.PipelinePlan.{plan_in, IsPipelinePlan};
ghost use Rattle.pipe_parts.specs.PipeDraft.Places.{AreStageSources};
ghost use Rattle.pipe_parts.specs.SlotParts.Nets.{AreMapNets};
ghost use Rattle.pipe_parts.specs.TurnParts.Parts.{AreActionPartsIn};

use crate::pipe_draft::{PipelinePlan, StageSources};
use crate::turn_parts::action::{action_part, action_shape};
use crate::turn_parts::commits::commits_part;
use crate::turn_parts::host::host_block;
use crate::turn_parts::records::records_at;
use crate::turn_parts::sites::{own_lists, taken_slots};
use crate::turn_parts::targets::target_parts;
use block_core::block::Block;
use block_core::name::Name;
use control_net::ring_net::shape::ControlShape;
use pipe_net::parts::Part;
use read_net::sites::MapNets;
use std::alloc::{AllocError, Global};
use turn_net::nets::{Action, ActionShape, RecordNets};
use turn_net::target_net::commits::CommitsPart;
use turn_net::target_net::targets::TargetPart;

/// The parts, with what they show to others.
#[derive(Drop)]
pub struct ActionParts<'a> {
    /// Of each map what the operations on it write.
    pub targets: Vec<TargetPart<Part>>,
    /// What the host may do.
    pub host: Block<Name<Part>>,
    /// What stands for the operations that may write.
    pub records: Vec<RecordNets<'a, Name<Part>>>,
    /// How many bits the part has that says which of them commits.
    pub action_shape: ActionShape,
    /// Which of them commits.
    pub action: Action<Part>,
    /// On which map it is.
    pub commits: CommitsPart<Part>,
}

/// The parts of actions of a program, for control of this shape: by the operands of sites after the commit place, and by what stands for the maps.
pub fn action_parts<'a>(
    alloc: Global,
    pipeline_plan: &'a PipelinePlan<'_>,
    shape: &ControlShape,
    at: &'a StageSources,
    maps: &[MapNets<'_, Name<Part>>],
) -> Result<ActionParts<'a>, AllocError>
    requires pipeline_plan { IsPipelinePlan pipeline_plan.now }
    requires shape { shape.now.commit ≡ pipeline_plan.now.sizes.commit }
    requires at { AreStageSources pipeline_plan.now (plan_in pipeline_plan.now).commit at.now }
    requires maps { AreMapNets pipeline_plan.now maps.now }
    ensures { IfOk result (AreActionPartsIn pipeline_plan.now shape.now at.now maps.now) }
{
    let action_shape = action_shape(pipeline_plan);
    let owns = own_lists(alloc, pipeline_plan, at)?;
    let taken = taken_slots(alloc, pipeline_plan, &action_shape)?;
    let targets = target_parts(alloc, pipeline_plan, maps, &owns, &taken)?;
    let records = records_at(alloc, pipeline_plan, at, &owns, &targets)?;
    let action = action_part(alloc, pipeline_plan, shape, &action_shape, &records)?;
    let commits = commits_part(alloc, pipeline_plan, &records, &action.chosen)?;
    let host = host_block(alloc, pipeline_plan)?;
    Ok(ActionParts {
        targets,
        host,
        records,
        action_shape,
        action,
        commits,
    })
}
