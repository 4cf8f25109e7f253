//! What the place of a row makes and holds.

ghost use Rattle.std.specs.Prelude.{IfOk};
ghost use Rattle.pipe_parts.specs.PipeDraft.PipelinePlan.{IsPipelinePlan};
ghost use Rattle.place_parts.specs.Places.{AreListsOf};

use pipe_parts::pipe_draft::PipelinePlan;
use row_net::lists::made;
use stage_net::site_table::lists::{held, held_pointers, made_pointers};
use std::alloc::{AllocError, Global};

/// The cells and the pointers that the place of a row makes from others, and those that it holds.
#[derive(Drop)]
pub(crate) struct PlaceLists {
    pub made: Vec<u32>,
    pub held: Vec<u32>,
    pub made_pointers: Vec<u32>,
    pub held_pointers: Vec<u32>,
}

/// The lists of the place of a row.
pub(crate) fn place_lists(
    alloc: Global,
    pipeline_plan: &PipelinePlan<'_>,
    k: u32,
) -> Result<PlaceLists, AllocError>
    requires { IsPipelinePlan pipeline_plan.now }
    ensures { IfOk result (AreListsOf pipeline_plan.now k) }
{
    let program = pipeline_plan.program;
    let plan = pipeline_plan.plan;
    let needed: &[bool] = &pipeline_plan.needed;
    let parts: &[bool] = &pipeline_plan.parts;
    let points: &[bool] = &pipeline_plan.points;
    Ok(PlaceLists {
        made: made(alloc, program, plan, needed, k)?,
        held: held(alloc, program, plan, needed, parts, k)?,
        made_pointers: made_pointers(alloc, program, plan, needed, points, k)?,
        held_pointers: held_pointers(alloc, program, plan, needed, parts, points, k)?,
    })
}
