//! The parts of places.

ghost use Rattle.std.specs.Prelude.{IfOk};
ghost use Rattle.pipe_parts.specs.PipeDraft.PipelinePlan.{IsPipelinePlan};
ghost use Rattle.pipe_parts.specs.PipeDraft.Places.{ArePlaces};
ghost use Rattle.place_parts.specs.Maps.{AreMapsFor};
ghost use Rattle.place_parts.specs.Parts.{ArePlaceParts};

use crate::first::{FirstPlace, first_place};
use crate::nets::word_nets;
use crate::stages::stages;
use crate::words::word_parts;
use block_core::block::Block;
use block_core::name::Name;
use commit_net::change_net::pointed::PointedWords;
use overlay_net::cell_nets::operand::Operand;
use pipe_net::parts::Part;
use pipe_parts::pipe_draft::{PipelinePlan, StageSources};
use read_net::sites::MapNets;
use std::alloc::{AllocError, Global};

/// The parts that show words under pointers, one for each site that reads one, and the blocks of all places. Beside them stands what is before the
/// first place: an operand for each cell that is the same for all packets, and for each that comes with a packet.
#[derive(Drop)]
pub struct PlaceParts {
    pub words: Vec<PointedWords<Name<Part>>>,
    pub places: Vec<Block<Name<Part>>>,
    pub first: Vec<Option<Operand<Name<Part>>>>,
}

/// The parts of the places of a pipeline plan, by what stands after each place and for each map.
pub fn place_parts(
    alloc: Global,
    pipeline_plan: &PipelinePlan<'_>,
    places: &[StageSources],
    maps: &[MapNets<'_, Name<Part>>],
) -> Result<PlaceParts, AllocError>
    requires pipeline_plan { IsPipelinePlan pipeline_plan.now }
    requires places { ArePlaces pipeline_plan.now places.now }
    requires maps { AreMapsFor pipeline_plan.now maps.now }
    ensures { IfOk result (ArePlaceParts pipeline_plan.now places.now maps.now) }
{
    let words = word_parts(alloc, pipeline_plan, places)?;
    let nets = word_nets(alloc, pipeline_plan, &words)?;
    let FirstPlace { block, table } = first_place(alloc, pipeline_plan, maps, &nets)?;
    let blocks = stages(alloc, pipeline_plan, places, maps, &nets, block)?;
    Ok(PlaceParts {
        words,
        places: blocks,
        first: table,
    })
}
