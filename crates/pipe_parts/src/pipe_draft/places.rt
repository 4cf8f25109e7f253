//! What stands after the places.

ghost use Rattle.std.specs.Prelude.{◌≡◌, ◌≤◌, IfOk};
ghost use Rattle.pipe_parts.specs.PipeDraft.PipelinePlan.{IsPipelinePlan};
ghost use Rattle.pipe_parts.specs.PipeDraft.Places.{AreSitesOf, AreStageSources, ArePlaces};

use crate::pipe_draft::pipeline_plan::PipelinePlan;
use block_core::name::Name;
use overlay_net::site_operands::SiteNets;
use pipe_net::parts::Part;
use stage_net::site_table::laws::stages_are_placed;
use stage_net::site_table::lists::{held, held_pointers};
use stage_net::site_table::sites::site_nets;
use stage_net::site_table::tables::{StageTables, behind};
use std::alloc::{AllocError, Global};

/// What stands after a place: tables of what stands for cells and for their pointers, and the operands of all sites.
#[derive(Drop)]
pub struct StageSources {
    pub tables: StageTables<Name<Part>>,
    pub sites: Vec<SiteNets<Name<Part>>>,
}

/// The operands of all sites by two tables.
pub fn sites_of(
    alloc: Global,
    pipeline_plan: &PipelinePlan<'_>,
    tables: &StageTables<Name<Part>>,
) -> Result<Vec<SiteNets<Name<Part>>>, AllocError>
    requires { IsPipelinePlan pipeline_plan.now }
    ensures { IfOk result (λ sites. AreSitesOf pipeline_plan.now tables.now sites.items) }
{
    let mut sites = Vec::new(alloc);
    for j in 0..pipeline_plan.program.sites.len() as u32 {
        let nets = site_nets(
            alloc,
            pipeline_plan.program,
            &tables.table,
            &tables.pointers,
            j,
        )?;
        sites.push(nets)?;
    }
    Ok(sites)
}

// What stands after a place.
fn stage_sources_at(
    alloc: Global,
    pipeline_plan: &PipelinePlan<'_>,
    k: u32,
) -> Result<StageSources, AllocError>
    requires pipeline_plan { IsPipelinePlan pipeline_plan.now }
    requires place { k ≤ pipeline_plan.now.plan.now.last }
    ensures { IfOk result (AreStageSources pipeline_plan.now k) }
{
    stages_are_placed();
    let program = pipeline_plan.program;
    let plan = pipeline_plan.plan;
    let needed = &pipeline_plan.needed;
    let parts = &pipeline_plan.parts;
    let held = held(alloc, program, plan, needed, parts, k)?;
    let pointers = held_pointers(
        alloc,
        program,
        plan,
        needed,
        parts,
        &pipeline_plan.points,
        k,
    )?;
    let tables = behind(
        alloc,
        pipeline_plan.sizes.place(k),
        pipeline_plan.bits,
        &program.cells,
        &held,
        &pointers,
        &pipeline_plan.constants,
        &pipeline_plan.plain,
    )?;
    let sites = sites_of(alloc, pipeline_plan, &tables)?;
    Ok(StageSources { tables, sites })
}

/// What stands after each place, from the first to the last.
pub fn stage_sources(
    alloc: Global,
    pipeline_plan: &PipelinePlan<'_>,
) -> Result<Vec<StageSources>, AllocError>
    requires { IsPipelinePlan pipeline_plan.now }
    ensures { IfOk result (λ places. ArePlaces pipeline_plan.now places.items) }
{
    let mut places = Vec::new(alloc);
    for k in 0..pipeline_plan.plan.rows() + 1 {
        places.push(stage_sources_at(alloc, pipeline_plan, k)?)?;
    }
    Ok(places)
}
