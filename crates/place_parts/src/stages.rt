//! The blocks of places over what stands before them.

ghost use Rattle.std.specs.Prelude.{◌≡◌, ◌<◌, ◌≤◌, All, IfOk, length};
ghost use Rattle.std.proofs.Common.{get_or};
ghost use Rattle.block_core.specs.declared.block.Block.{Block};
ghost use Rattle.block_core.specs.declared.name.Name.{Name};
ghost use Rattle.block_core.specs.View.{block_of};
ghost use Rattle.overlay_net.specs.cell_nets.Operands.{IsOperand};
ghost use Rattle.overlay_net.specs.cell_nets.Wires.{wires_of};
ghost use Rattle.pipe_net.specs.declared.parts.Part.{Part};
ghost use Rattle.pipe_parts.specs.PipeDraft.PipelinePlan.{program_in, plan_in, IsPipelinePlan};
ghost use Rattle.pipe_parts.specs.PipeDraft.Places.{ArePlaces};
ghost use Rattle.place_parts.specs.Maps.{AreMapsFor};
ghost use Rattle.place_parts.specs.Places.{StandsBefore, IsStageOf, IsLaterStage};
ghost use Rattle.place_parts.specs.Parts.{AreStages};

use crate::lists::place_lists;
use block_core::block::{Block, BlockWire};
use block_core::name::Name;
use control_net::names::{Wire, wire_name};
use overlay_net::cell_nets::operand::Operand;
use pipe_net::parts::Part;
use pipe_parts::pipe_draft::{PipelinePlan, StageSources};
use read_net::sites::MapNets;
use stage_net::row::{ProgramRow, StageNets};
use stage_net::site_table::laws::stages_are_placed;
use stage_net::stage::{StageCells, stage};
use std::alloc::{AllocError, Global};

/// The block of the place of a row, after wires that it has.
pub(crate) fn stage_over(
    alloc: Global,
    pipeline_plan: &PipelinePlan<'_>,
    before: &StageSources,
    maps: &[MapNets<'_, Name<Part>>],
    words: &[Operand<Name<Part>>],
    wires: Vec<BlockWire<Name<Part>>>,
    k: u32,
) -> Result<Block<Name<Part>>, AllocError>
    requires pipeline_plan { IsPipelinePlan pipeline_plan.now }
    requires before { StandsBefore pipeline_plan.now k before.now }
    requires maps { AreMapsFor pipeline_plan.now maps.now }
    requires word_count { length words.now ≡ length (program_in pipeline_plan.now).sites }
    requires words { All IsOperand words.now }
    requires place { k ≤ (plan_in pipeline_plan.now).last }
    ensures { IfOk result (λ b. IsStageOf pipeline_plan.now before.now maps.now words.now (wires_of wires.items) k (block_of b)) }
{
    stages_are_placed();
    let lists = place_lists(alloc, pipeline_plan, k)?;
    let at = ProgramRow {
        program: pipeline_plan.program,
        rows: &pipeline_plan.rows,
        row: k,
    };
    let nets = StageNets {
        sites: &before.sites,
        maps,
        words,
        bits: pipeline_plan.bits,
    };
    let cells = StageCells {
        made: &lists.made,
        held: &lists.held,
        made_pointers: &lists.made_pointers,
        held_pointers: &lists.held_pointers,
    };
    let part = pipeline_plan.sizes.place(k);
    let advance = wire_name(pipeline_plan.sizes.control(), Wire::Advances);
    let table = Vec::from_slice(alloc, &before.tables.table)?;
    let pointers = Vec::from_slice(alloc, &before.tables.pointers)?;
    let block = stage(
        alloc, part, &at, &nets, advance, wires, table, pointers, &cells,
    )?;
    Ok(block)
}

// The block of a later place, over what stands after the place before.
fn later_stage(
    alloc: Global,
    pipeline_plan: &PipelinePlan<'_>,
    places: &[StageSources],
    maps: &[MapNets<'_, Name<Part>>],
    words: &[Operand<Name<Part>>],
    before: u32,
) -> Result<Block<Name<Part>>, AllocError>
    requires pipeline_plan { IsPipelinePlan pipeline_plan.now }
    requires places { ArePlaces pipeline_plan.now places.now }
    requires maps { AreMapsFor pipeline_plan.now maps.now }
    requires word_count { length words.now ≡ length (program_in pipeline_plan.now).sites }
    requires words { All IsOperand words.now }
    requires place { before < (plan_in pipeline_plan.now).last }
    ensures { IfOk result (λ b. IsLaterStage pipeline_plan.now places.now maps.now words.now before (block_of b)) }
{
    let behind = &places[before as usize];
    let wires = Vec::new(alloc);
    let block = stage_over(alloc, pipeline_plan, behind, maps, words, wires, before + 1)?;
    Ok(block)
}

/// The blocks of all places, after that of the first one.
pub(crate) fn stages(
    alloc: Global,
    pipeline_plan: &PipelinePlan<'_>,
    places: &[StageSources],
    maps: &[MapNets<'_, Name<Part>>],
    words: &[Operand<Name<Part>>],
    first: Block<Name<Part>>,
) -> Result<Vec<Block<Name<Part>>>, AllocError>
    requires pipeline_plan { IsPipelinePlan pipeline_plan.now }
    requires places { ArePlaces pipeline_plan.now places.now }
    requires maps { AreMapsFor pipeline_plan.now maps.now }
    requires word_count { length words.now ≡ length (program_in pipeline_plan.now).sites }
    requires words { All IsOperand words.now }
    ensures first { IfOk result (λ blocks. (b : Block (Name Part)) → get_or blocks.items 0 b ≡ first) }
    ensures stages { IfOk result (λ blocks. AreStages pipeline_plan.now places.now maps.now words.now blocks.items) }
{
    let mut blocks = Vec::new(alloc);
    blocks.push(first)?;
    for before in 0..pipeline_plan.plan.rows() {
        blocks.push(later_stage(alloc, pipeline_plan, places, maps, words, before)?)?;
    }
    Ok(blocks)
}
