//! The parts of a pipeline.

ghost use Rattle.std.specs.Prelude.{◌≡◌, ◌+◌, ◌≤◌, IfOk, length};
ghost use Rattle.pipe_parts.specs.PipeDraft.PipelinePlan.{decls_in, program_in, plan_in, IsPipelinePlan};
ghost use Rattle.pipe_parts.specs.PipeDraft.Places.{ArePlaces, AreStageSources};
ghost use Rattle.pipe_parts.specs.SlotParts.Slots.{AreSlotsParts};
ghost use Rattle.pipe_parts.specs.TurnParts.Parts.{AreActionPartsIn};
ghost use Rattle.pipe_design.specs.Answer.{changed_words};
ghost use Rattle.pipe_design.specs.Layout.{IsShapeOf};
ghost use Rattle.pipe_design.specs.Parts.{AreMapCommits, SaysAll, AreMapPartsBy, AreOthers, AreAllParts};

use crate::answer::answer;
use crate::lists::in_lists;
use crate::map_parts::committing::{Committing, MapCommits};
use crate::map_parts::laws::{changes_are_for_marks, parts_are_of_maps};
use crate::map_parts::parts::{MapParts, map_parts};
use crate::marks::{mark_blocks, mark_layout, reload_parts};
use crate::order::in_order;
use block_core::block::{Block, Placed};
use block_core::name::Name;
use control_net::ring_net::shape::ControlShape;
use hazard_core::cell_core::xdp_state::xdp_maps::decl::MapDecl;
use pipe_net::parts::Part;
use pipe_parts::pipe_draft::laws::pipeline_planned_are_laid;
use pipe_parts::pipe_draft::{PipelinePlan, StageSources};
use pipe_parts::slot_parts::laws::slots_are_shown;
use pipe_parts::slot_parts::nets::map_nets;
use pipe_parts::slot_parts::slots::{SlotsPart, slots_parts};
use pipe_parts::turn_parts::laws::parts_are_of_actions;
use pipe_parts::turn_parts::parts::{ActionParts, action_parts};
use place_parts::frame_parts::layout::FrameLayout;
use place_parts::frame_parts::parts::{FrameParts, frame_parts};
use place_parts::laws::parts_are_of_places;
use place_parts::mark_parts::laws::parts_are_of_marks;
use place_parts::parts::{PlaceParts, place_parts};
use std::alloc::{AllocError, Global};
use turn_net::target_net::targets::TargetPart;

/// The parts beside those that show the slots of maps: those of frames; the blocks that say which packets must reload, and those of marks; the parts of what commits, those of
/// the maps, and those of places.
#[derive(Drop)]
pub(crate) struct Others {
    pub(crate) frames: FrameParts,
    pub(crate) reloads: Vec<Block<Name<Part>>>,
    pub(crate) targets: Vec<TargetPart<Part>>,
    pub(crate) host: Block<Name<Part>>,
    pub(crate) action: Block<Name<Part>>,
    pub(crate) commits: Block<Name<Part>>,
    pub(crate) maps: MapParts,
    pub(crate) marks: Vec<Block<Name<Part>>>,
    pub(crate) places: PlaceParts,
}

// The sizes of control: a slot for each place, and for three frames that come, wait or go.
fn shape(pipeline_plan: &PipelinePlan<'_>) -> ControlShape
    requires { IsPipelinePlan pipeline_plan.now }
    ensures { IsShapeOf pipeline_plan.now result }
{
    let plan = pipeline_plan.plan;
    ControlShape::new(plan.rows() + 4, plan.rows(), plan.commit_row())
}

// What the parts of actions say of the operations on each map.
fn commits_of<'a>(
    alloc: Global,
    pipeline_plan: &PipelinePlan<'_>,
    action: &'a ActionParts<'_>,
) -> Result<Vec<MapCommits<'a>>, AllocError>
    requires targets { length action.now.targets.items ≡ length pipeline_plan.now.forms.items }
    requires commits { length action.now.commits.commits.items ≡ length pipeline_plan.now.forms.items }
    ensures { IfOk result (λ all. AreMapCommits pipeline_plan.now action.now all.items) }
{
    let mut all = Vec::new(alloc);
    for m in 0..pipeline_plan.forms.len() {
        all.push(MapCommits {
            commits: action.commits.commits[m],
            targets: &action.targets[m].targets,
        })?;
    }
    Ok(all)
}

// The parts of maps, by what the parts of actions say.
fn maps_by(
    alloc: Global,
    pipeline_plan: &PipelinePlan<'_>,
    at: &StageSources,
    action: &ActionParts<'_>,
) -> Result<MapParts, AllocError>
    requires pipeline_plan { IsPipelinePlan pipeline_plan.now }
    requires at { AreStageSources pipeline_plan.now (plan_in pipeline_plan.now).commit at.now }
    requires action { SaysAll pipeline_plan.now action.now }
    ensures { IfOk result (AreMapPartsBy pipeline_plan.now at.now action.now) }
{
    let maps = commits_of(alloc, pipeline_plan, action)?;
    let committing = Committing {
        chosen: &action.action.chosen,
        maps: &maps,
    };
    map_parts(alloc, pipeline_plan, at, &committing)
}

// All that are made by what stands after the places and for the maps.
fn other_parts<'a>(
    alloc: Global,
    pipeline_plan: &'a PipelinePlan<'_>,
    decls: &'a [MapDecl],
    places: &'a [StageSources],
    words: &'a [u8],
    slots: &'a [SlotsPart],
) -> Result<Others, AllocError>
    requires pipeline_plan { IsPipelinePlan pipeline_plan.now }
    requires decls { decls.now ≡ decls_in pipeline_plan.now }
    requires places { ArePlaces pipeline_plan.now places.now }
    requires words { words.now ≡ changed_words (program_in pipeline_plan.now).frame }
    requires few { length words.now ≤ 32 }
    requires slots { AreSlotsParts pipeline_plan.now slots.now }
    ensures { IfOk result (AreOthers pipeline_plan.now places.now words.now) }
{
    changes_are_for_marks();
    let shape = shape(pipeline_plan);
    let answer = answer(alloc, pipeline_plan, places)?;
    let layout = mark_layout(pipeline_plan, decls);
    let reloads = reload_parts(alloc, pipeline_plan, &layout, places)?;
    let maps = map_nets(alloc, pipeline_plan, slots)?;
    let at = &places[pipeline_plan.plan.commit_row() as usize];
    let actions = action_parts(alloc, pipeline_plan, &shape, at, &maps)?;
    let map_parts = maps_by(alloc, pipeline_plan, at, &actions)?;
    let marks = mark_blocks(alloc, pipeline_plan, &layout, places, &map_parts.changes)?;
    let frame_layout = FrameLayout {
        sizes: pipeline_plan.sizes,
        shape: &shape,
        kept: &pipeline_plan.kept,
        words,
        answer: &answer,
        reload: &reloads.nets,
        stays: actions.action.stays,
    };
    let frames = frame_parts(alloc, &frame_layout)?;
    let places = place_parts(alloc, pipeline_plan, places, &maps)?;
    let action = actions.action;
    let commits = actions.commits;
    Ok(Others {
        frames,
        reloads: reloads.blocks,
        targets: actions.targets,
        host: actions.host,
        action: action.block,
        commits: commits.block,
        maps: map_parts,
        marks,
        places,
    })
}

/// All parts of a pipeline, by what stands after its places, where these words of a frame may change.
pub(crate) fn parts(
    alloc: Global,
    pipeline_plan: &PipelinePlan<'_>,
    decls: &[MapDecl],
    places: &[StageSources],
    words: &[u8],
) -> Result<Vec<Placed<Part>>, AllocError>
    requires pipeline_plan { IsPipelinePlan pipeline_plan.now }
    requires decls { decls.now ≡ decls_in pipeline_plan.now }
    requires places { ArePlaces pipeline_plan.now places.now }
    requires words { words.now ≡ changed_words (program_in pipeline_plan.now).frame }
    requires few { length words.now ≤ 32 }
    ensures { IfOk result (λ ms. AreAllParts pipeline_plan.now places.now words.now ms.items) }
{
    slots_are_shown();
    parts_are_of_actions();
    parts_are_of_maps();
    parts_are_of_places();
    parts_are_of_marks();
    pipeline_planned_are_laid();
    let slots = slots_parts(alloc, pipeline_plan)?;
    let others = other_parts(alloc, pipeline_plan, decls, places, words, &slots)?;
    let lists = in_lists(alloc, slots, others)?;
    in_order(alloc, lists)
}
