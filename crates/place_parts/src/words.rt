//! The parts that show words under pointers.

ghost use Rattle.std.specs.Prelude.{◌≡◌, ◌/◌, ◌<◌, ◌≤◌, true, IfOk, length};
ghost use Rattle.commit_net.specs.MapBlock.Stored.{first_value};
ghost use Rattle.overlay_net.specs.ValueNet.Words.{answers_number, access_start};
ghost use Rattle.pipe_parts.specs.PipeDraft.PipelinePlan.{program_in, plan_in, IsPipelinePlan};
ghost use Rattle.pipe_parts.specs.PipeDraft.Places.{ArePlaces};
ghost use Rattle.place_parts.specs.Words.{word_row, IsPointerBefore, IsWordPart, AreWordParts};

use block_core::name::Name;
use commit_net::change_net::pointed::{PointedWords, pointed_words};
use hash_net::value_first;
use hazard_core::cell_core::site::Act;
use hazard_core::cell_core::xdp_state::xdp_maps::decl::{MapDecl, MapKind};
use hazard_core::pending::row_in;
use hazard_core::site::{answer_cell, site_at};
use overlay_net::cell_nets::operand::Operand;
use pipe_net::parts::Part;
use pipe_parts::pipe_draft::{PipelinePlan, StageSources};
use std::alloc::{AllocError, Global};

/// The number of a pointer to a slot has the slot's number above so many bits.
const SLOT_SHIFT: u8 = 2;

// The row of the cell that reads a site, 0 where none does.
fn word_row(pipeline_plan: &PipelinePlan<'_>, site: u32) -> u32
    requires { IsPipelinePlan pipeline_plan.now }
    ensures row { result ≡ word_row pipeline_plan.now site }
    ensures most { result ≤ (plan_in pipeline_plan.now).last }
{
    let cell = answer_cell(pipeline_plan.program, site as usize);
    row_in(&pipeline_plan.rows, cell)
}

// What stands for the pointer of a site before the place of a row. Before the first one no cell has a pointer.
fn pointer_before(
    pipeline_plan: &PipelinePlan<'_>,
    places: &[StageSources],
    row: u32,
    site: u32,
) -> Operand<Name<Part>>
    requires places { ArePlaces pipeline_plan.now places.now }
    requires row { row ≤ (plan_in pipeline_plan.now).last }
    requires site { site < length (program_in pipeline_plan.now).sites }
    ensures { IsPointerBefore places.now row site result }
{
    if row == 0 {
        Operand::Known(0)
    } else {
        places[row as usize - 1].sites[site as usize].pointer
    }
}

// The memory that has the first words of the values of a map.
fn first_value(decl: &MapDecl) -> u32
    requires { decl.now.key ≤ 40 }
    ensures value { result ≡ first_value decl.now }
    ensures few { result ≤ 15 }
{
    match decl.kind {
        MapKind::Hash => value_first(decl),
        MapKind::Array => 0,
    }
}

// The word of a value in which an access begins.
fn word_index(act: Act) -> u32
    requires { answers_number act ≡ true }
    ensures { result ≡ access_start act / 8 }
{
    match act {
        Act::Load(at, _) => at / 8,
        Act::Atomic(at, _) => at / 8,
        _ => 0,
    }
}

// The part for one of the sites that read a word.
fn word_part(
    alloc: Global,
    pipeline_plan: &PipelinePlan<'_>,
    places: &[StageSources],
    i: u32,
) -> Result<PointedWords<Name<Part>>, AllocError>
    requires pipeline_plan { IsPipelinePlan pipeline_plan.now }
    requires places { ArePlaces pipeline_plan.now places.now }
    requires load { i < length pipeline_plan.now.loads.items }
    ensures { IfOk result (IsWordPart pipeline_plan.now places.now i) }
{
    let number = pipeline_plan.loads[i as usize];
    let site = site_at(pipeline_plan.program, number as usize);
    let form = &pipeline_plan.forms[site.map as usize];
    let row = word_row(pipeline_plan, number);
    let part = pointed_words(
        alloc,
        pipeline_plan.sizes.word(i),
        Vec::new(alloc),
        pointer_before(pipeline_plan, places, row, number),
        SLOT_SHIFT,
        pipeline_plan.sizes.own(site.map),
        form.bits,
        first_value(&form.decl),
        form.decl.value,
        word_index(site.act),
        1,
    )?;
    Ok(part)
}

/// The parts for all of them, in their order.
pub(crate) fn word_parts(
    alloc: Global,
    pipeline_plan: &PipelinePlan<'_>,
    places: &[StageSources],
) -> Result<Vec<PointedWords<Name<Part>>>, AllocError>
    requires pipeline_plan { IsPipelinePlan pipeline_plan.now }
    requires places { ArePlaces pipeline_plan.now places.now }
    ensures { IfOk result (λ words. AreWordParts pipeline_plan.now places.now words.items) }
{
    let mut words = Vec::new(alloc);
    for i in 0..pipeline_plan.loads.len() as u32 {
        words.push(word_part(alloc, pipeline_plan, places, i)?)?;
    }
    Ok(words)
}
