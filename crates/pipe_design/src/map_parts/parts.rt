//! The parts of maps.

ghost use Rattle.std.specs.Prelude.{◌≡◌, ◌<◌, IfOk, length};
ghost use Rattle.pipe_parts.specs.PipeDraft.PipelinePlan.{program_in, IsPipelinePlan};
ghost use Rattle.pipe_parts.specs.PipeDraft.Places.{AreStageSources};
ghost use Rattle.pipe_design.specs.MapParts.Operations.{AreTargetsOn, IsCommitting, AreChosen};
ghost use Rattle.pipe_design.specs.MapParts.Parts.{ArePartsOfMap};
ghost use Rattle.pipe_design.specs.MapParts.Whole.{AreMapPartsFor};

use crate::map_parts::committing::{Committing, MapCommits};
use crate::map_parts::operations::operations;
use crate::map_parts::tables::{change_of_map, parts_of_map};
use crate::map_parts::words::value_block;
use block_core::block::Block;
use block_core::name::Name;
use commit_net::change_net::change::ChangePart;
use commit_net::change_net::pointed::PointedWords;
use commit_net::map_block::MapBlocks;
use overlay_net::cell_nets::operand::Operand;
use pipe_net::parts::Part;
use pipe_parts::pipe_draft::{PipelinePlan, StageSources};
use std::alloc::{AllocError, Global};

/// The parts of a map: those of its table, and the one that gives the slot that a clock writes and the key there.
#[derive(Drop)]
pub struct PartsOfMap {
    pub table: MapBlocks<Name<Part>>,
    pub written: PointedWords<Name<Part>>,
}

/// The parts of all maps, and of each the one that gives what a clock changes; and the block with the word that the host reads.
#[derive(Drop)]
pub struct MapParts {
    pub maps: Vec<PartsOfMap>,
    pub changes: Vec<ChangePart<Name<Part>>>,
    pub value: Block<Name<Part>>,
}

/// The parts of one map.
#[derive(Drop)]
struct OneMap {
    parts: PartsOfMap,
    change: ChangePart<Name<Part>>,
}

// The parts of the map of a number, by what stands after the commit place.
fn one_map(
    alloc: Global,
    pipeline_plan: &PipelinePlan<'_>,
    at: &StageSources,
    chosen: &[Operand<Name<Part>>],
    on: &MapCommits<'_>,
    m: usize,
) -> Result<OneMap, AllocError>
    requires pipeline_plan { IsPipelinePlan pipeline_plan.now }
    requires at { AreStageSources pipeline_plan.now pipeline_plan.now.plan.now.commit at.now }
    requires known { m < length pipeline_plan.now.forms.items }
    requires chosen { AreChosen (program_in pipeline_plan.now) chosen.now }
    requires targets { AreTargetsOn (program_in pipeline_plan.now) m on.now.targets.now }
    ensures { IfOk result (λ r. ArePartsOfMap pipeline_plan.now at.now.sites.items chosen.now on.now m r.parts r.change) }
{
    let form = &pipeline_plan.forms[m];
    let sizes = &pipeline_plan.sizes;
    let commits = on.commits;
    let operations = operations(
        alloc,
        pipeline_plan,
        &at.sites,
        chosen,
        on.targets,
        m as u32,
    )?;
    let parts = parts_of_map(alloc, sizes, form, commits, &operations)?;
    let change = change_of_map(alloc, sizes, form, commits, &operations, &parts)?;
    Ok(OneMap { parts, change })
}

/// The parts of all maps, by what stands after the commit place and what other parts say of the operations that commit.
pub fn map_parts(
    alloc: Global,
    pipeline_plan: &PipelinePlan<'_>,
    at: &StageSources,
    committing: &Committing<'_>,
) -> Result<MapParts, AllocError>
    requires pipeline_plan { IsPipelinePlan pipeline_plan.now }
    requires at { AreStageSources pipeline_plan.now pipeline_plan.now.plan.now.commit at.now }
    requires committing { IsCommitting pipeline_plan.now committing.now }
    ensures { IfOk result (AreMapPartsFor pipeline_plan.now at.now.sites.items committing.now) }
{
    let mut maps = Vec::new(alloc);
    let mut changes = Vec::new(alloc);
    for m in 0..pipeline_plan.forms.len() {
        let on = &committing.maps[m];
        let made = one_map(alloc, pipeline_plan, at, committing.chosen, on, m)?;
        maps.push(made.parts)?;
        changes.push(made.change)?;
    }
    let value = value_block(alloc, pipeline_plan)?;
    Ok(MapParts {
        maps,
        changes,
        value,
    })
}
