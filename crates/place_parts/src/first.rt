//! The first place.

ghost use Rattle.std.specs.Prelude.{◌≡◌, All, IfOk, length};
ghost use Rattle.block_core.specs.View.{block_of};
ghost use Rattle.overlay_net.specs.cell_nets.Operands.{IsOperand};
ghost use Rattle.overlay_net.specs.cell_nets.Wires.{wires_of};
ghost use Rattle.pipe_parts.specs.PipeDraft.PipelinePlan.{program_in, IsPipelinePlan};
ghost use Rattle.place_parts.specs.Maps.{AreMapsFor};
ghost use Rattle.place_parts.specs.Places.{IsArriving, IsFirstPlace};

use crate::stages::stage_over;
use block_core::block::{Block, BlockWire};
use block_core::name::Name;
use overlay_net::cell_nets::operand::Operand;
use pipe_net::parts::Part;
use pipe_parts::pipe_draft::{PipelinePlan, StageSources, sites_of};
use read_net::sites::MapNets;
use row_net::place_net::source_cells;
use stage_net::site_table::tables::StageTables;
use std::alloc::{AllocError, Global};

/// Wires for the cells that come with a packet, and what stands before the first place by these.
#[derive(Drop)]
pub(crate) struct Arriving {
    pub wires: Vec<BlockWire<Name<Part>>>,
    pub before: StageSources,
}

/// The first place: its block, and the table before it.
#[derive(Drop)]
pub(crate) struct FirstPlace {
    pub block: Block<Name<Part>>,
    pub table: Vec<Option<Operand<Name<Part>>>>,
}

// What stands before the first place: numbers, and the cells that come with a packet.
fn before_first(alloc: Global, pipeline_plan: &PipelinePlan<'_>) -> Result<Arriving, AllocError>
    requires { IsPipelinePlan pipeline_plan.now }
    ensures { IfOk result (λ r. IsArriving pipeline_plan.now (wires_of r.wires.items) r.before) }
{
    let mut table = Vec::from_slice(alloc, &pipeline_plan.constants)?;
    let mut wires = Vec::new(alloc);
    source_cells(
        alloc,
        &mut wires,
        pipeline_plan.sizes.place(0),
        pipeline_plan.sizes.sources(),
        &pipeline_plan.kept,
        &pipeline_plan.program.cells,
        &pipeline_plan.sources,
        &mut table,
    )?;
    let pointers = Vec::from_slice(alloc, &pipeline_plan.plain)?;
    let tables = StageTables { table, pointers };
    let sites = sites_of(alloc, pipeline_plan, &tables)?;
    Ok(Arriving {
        wires,
        before: StageSources { tables, sites },
    })
}

/// The first place of a pipeline plan.
pub(crate) fn first_place(
    alloc: Global,
    pipeline_plan: &PipelinePlan<'_>,
    maps: &[MapNets<'_, Name<Part>>],
    words: &[Operand<Name<Part>>],
) -> Result<FirstPlace, AllocError>
    requires pipeline_plan { IsPipelinePlan pipeline_plan.now }
    requires maps { AreMapsFor pipeline_plan.now maps.now }
    requires word_count { length words.now ≡ length (program_in pipeline_plan.now).sites }
    requires words { All IsOperand words.now }
    ensures { IfOk result (λ r. IsFirstPlace pipeline_plan.now maps.now words.now r.table.items (block_of r.block)) }
{
    let Arriving { wires, before } = before_first(alloc, pipeline_plan)?;
    let table = Vec::from_slice(alloc, &before.tables.table)?;
    let block = stage_over(alloc, pipeline_plan, &before, maps, words, wires, 0)?;
    Ok(FirstPlace { block, table })
}
