//! The part with the word that the host reads.

ghost use Rattle.std.specs.Prelude.{◌≡◌, ◌<◌, IfOk};
ghost use Rattle.block_core.specs.View.{block_of};
ghost use Rattle.commit_net.specs.MapBlock.Stored.{host_word};
ghost use Rattle.pipe_net.specs.Parts as part;
ghost use Rattle.pipe_net.specs.Parts.{IsSmall};
ghost use Rattle.pipe_parts.specs.PipeDraft.PipelinePlan.{IsPipelinePlan};
ghost use Rattle.pipe_design.specs.MapParts.Words.{AreHostWords, IsValueOver};

use block_core::block::Block;
use block_core::name::Name;
use commit_net::map_block::MapForm;
use hazard_core::cell_core::xdp_state::xdp_maps::decl::MapKind;
use pipe_net::parts::{Part, Sizes};
use pipe_parts::pipe_draft::PipelinePlan;
use std::alloc::{AllocError, Global};
use turn_net::host_net::names::{Wire, wire_name};
use turn_net::host_net::value::value;

// The wire of the word that a map shows to the host.
fn host_word(sizes: &Sizes, form: &MapForm) -> Name<Part>
    requires small { IsSmall sizes.now }
    requires map { form.now.number < sizes.now.maps }
    ensures { result ≡ host_word form.now (part.own sizes.now form.now.number) }
{
    let own = sizes.own(form.number as u32);
    match form.decl.kind {
        MapKind::Hash => hash_net::value_name(own),
        MapKind::Array => hash_net::array_net::value_name(own),
    }
}

// Those of all maps.
fn host_words(
    alloc: Global,
    pipeline_plan: &PipelinePlan<'_>,
) -> Result<Vec<Name<Part>>, AllocError>
    requires { IsPipelinePlan pipeline_plan.now }
    ensures { IfOk result (λ words. AreHostWords pipeline_plan.now words.items) }
{
    let mut words = Vec::new(alloc);
    for m in 0..pipeline_plan.forms.len() {
        words.push(host_word(&pipeline_plan.sizes, &pipeline_plan.forms[m]))?;
    }
    Ok(words)
}

/// The block with the word that the host reads.
pub(crate) fn value_block(
    alloc: Global,
    pipeline_plan: &PipelinePlan<'_>,
) -> Result<Block<Name<Part>>, AllocError>
    requires { IsPipelinePlan pipeline_plan.now }
    ensures { IfOk result (λ b. IsValueOver pipeline_plan.now (block_of b)) }
{
    let words = host_words(alloc, pipeline_plan)?;
    let ready = wire_name(pipeline_plan.sizes.host(), Wire::Ready);
    let block = value(alloc, pipeline_plan.sizes.value(), ready, &words)?;
    Ok(block)
}
