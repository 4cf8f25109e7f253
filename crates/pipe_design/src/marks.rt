//! The parts of marks at all places up to the commit place.

ghost use Rattle.std.specs.Prelude.{◌≡◌, IfOk};
ghost use Rattle.place_parts.specs.MarkParts.Marks.{HaveChanges};
ghost use Rattle.pipe_parts.specs.PipeDraft.PipelinePlan.{decls_in, IsPipelinePlan};
ghost use Rattle.pipe_parts.specs.PipeDraft.Places.{ArePlaces};
ghost use Rattle.pipe_design.specs.Marks.{IsMarkLayoutOf, AreReloadParts, AreMarkBlocks};

use block_core::block::Block;
use block_core::name::Name;
use commit_net::change_net::change::ChangePart;
use hazard_core::cell_core::xdp_state::xdp_maps::decl::MapDecl;
use pipe_net::parts::Part;
use pipe_parts::pipe_draft::{PipelinePlan, StageSources};
use place_parts::mark_parts::layout::MarkLayout;
use place_parts::mark_parts::marks::marks_block;
use place_parts::mark_parts::reload::reload_part;
use std::alloc::{AllocError, Global};

/// Of each place up to the commit place the net that says whether its packet must reload, and the block that shows it.
#[derive(Drop)]
pub(crate) struct ReloadParts {
    pub(crate) blocks: Vec<Block<Name<Part>>>,
    pub(crate) nets: Vec<Name<Part>>,
}

/// What marks are made for.
pub(crate) fn mark_layout<'a>(
    pipeline_plan: &'a PipelinePlan<'_>,
    decls: &'a [MapDecl],
) -> MarkLayout<'a>
    requires pipeline_plan { IsPipelinePlan pipeline_plan.now }
    requires decls { decls.now ≡ decls_in pipeline_plan.now }
    ensures { IsMarkLayoutOf pipeline_plan.now result }
{
    MarkLayout {
        program: pipeline_plan.program,
        rows: &pipeline_plan.rows,
        decls,
        sizes: pipeline_plan.sizes,
    }
}

/// The parts that say which packets must reload.
pub(crate) fn reload_parts(
    alloc: Global,
    pipeline_plan: &PipelinePlan<'_>,
    layout: &MarkLayout<'_>,
    places: &[StageSources],
) -> Result<ReloadParts, AllocError>
    requires pipeline_plan { IsPipelinePlan pipeline_plan.now }
    requires layout { IsMarkLayoutOf pipeline_plan.now layout.now }
    requires places { ArePlaces pipeline_plan.now places.now }
    ensures { IfOk result (AreReloadParts layout.now places.now) }
{
    let mut blocks = Vec::new(alloc);
    let mut nets = Vec::new(alloc);
    for k in 0..pipeline_plan.sizes.commit + 1 {
        let part = reload_part(alloc, layout, &places[k as usize].sites, k)?;
        nets.push(part.reload)?;
        blocks.push(part.block)?;
    }
    Ok(ReloadParts { blocks, nets })
}

/// The blocks of marks, by what changes in each map.
pub(crate) fn mark_blocks(
    alloc: Global,
    pipeline_plan: &PipelinePlan<'_>,
    layout: &MarkLayout<'_>,
    places: &[StageSources],
    changes: &[ChangePart<Name<Part>>],
) -> Result<Vec<Block<Name<Part>>>, AllocError>
    requires pipeline_plan { IsPipelinePlan pipeline_plan.now }
    requires layout { IsMarkLayoutOf pipeline_plan.now layout.now }
    requires places { ArePlaces pipeline_plan.now places.now }
    requires changes { HaveChanges layout.now changes.now }
    ensures { IfOk result (λ blocks. AreMarkBlocks layout.now places.now changes.now blocks.items) }
{
    let mut blocks = Vec::new(alloc);
    for k in 0..pipeline_plan.sizes.commit + 1 {
        let sites = &places[k as usize].sites;
        blocks.push(marks_block(alloc, layout, sites, changes, k)?)?;
    }
    Ok(blocks)
}
