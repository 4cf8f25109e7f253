//! What stands for the words that sites read.

ghost use Rattle.std.specs.Prelude.{◌≡◌, All, IfOk, length};
ghost use Rattle.overlay_net.specs.cell_nets.declared.operand.Operand.TheVariants.{Known};
ghost use Rattle.pipe_parts.specs.PipeDraft.PipelinePlan.{IsPipelinePlan};
ghost use Rattle.place_parts.specs.Words.{HaveWords, AreWordNets};

use block_core::name::Name;
use commit_net::change_net::pointed::PointedWords;
use overlay_net::cell_nets::operand::Operand;
use pipe_net::parts::Part;
use pipe_parts::pipe_draft::PipelinePlan;
use std::alloc::{AllocError, Global};

// The number 0 for each site.
fn no_words(
    alloc: Global,
    pipeline_plan: &PipelinePlan<'_>,
) -> Result<Vec<Operand<Name<Part>>>, AllocError>
    ensures count { IfOk result (λ nets. length nets.items ≡ length pipeline_plan.now.program.now.sites.items) }
    ensures none { IfOk result (λ nets. All (λ a. a ≡ Known 0) nets.items) }
{
    let mut nets = Vec::new(alloc);
    for _site in 0..pipeline_plan.program.sites.len() {
        nets.push(Operand::Known(0))?;
    }
    Ok(nets)
}

/// What stands for the word of each site: the net of its part, and 0 for a site that reads none.
pub(crate) fn word_nets(
    alloc: Global,
    pipeline_plan: &PipelinePlan<'_>,
    words: &[PointedWords<Name<Part>>],
) -> Result<Vec<Operand<Name<Part>>>, AllocError>
    requires pipeline_plan { IsPipelinePlan pipeline_plan.now }
    requires words { HaveWords pipeline_plan.now words.now }
    ensures { IfOk result (λ nets. AreWordNets pipeline_plan.now words.now nets.items) }
{
    let mut nets = no_words(alloc, pipeline_plan)?;
    for i in 0..pipeline_plan.loads.len() {
        nets[pipeline_plan.loads[i] as usize] = Operand::Net(words[i].words[0], 64);
    }
    Ok(nets)
}
