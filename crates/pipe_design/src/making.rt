//! The design of a program.

ghost use Rattle.std.specs.Prelude.{◌≡◌, ◌≤◌, ◌<◌, length, slice_index, IfOk, IsErrOf, IsTrue};
ghost use Rattle.net_core.specs.View.{netlist_of};
ghost use Rattle.net_core.specs.ProductRules.Products.{no_product_chains};
ghost use Rattle.block_core.specs.design_rules.Formed.{IsWellFormed};
ghost use Rattle.block_core.specs.declared.error.LinkError.TheVariants as link;
ghost use Rattle.hazard_core.specs.cell_core.View.{program_of};
ghost use Rattle.stage_net.specs.SiteTable.Constants.{AreEarly};
ghost use Rattle.pipe_parts.specs.PipeDraft.Program.{IsForPipe};
ghost use Rattle.pipe_parts.specs.PipeDraft.PipelinePlan.{most_sites, program_in, plan_in, decls_in, IsPipelinePlan};
ghost use Rattle.pipe_design.specs.declared.error.PipelineError.TheVariants as error;
ghost use Rattle.pipe_design.specs.Pipeline.{IsPipelineOf, IsTooLarge};

use crate::answer::changed_words;
use crate::error::PipelineError;
use crate::linking::link_pipeline;
use crate::parts::parts;
use block_core::LinkError;
use hazard_core::cell_core::program::CellProgram;
use hazard_core::cell_core::xdp_state::xdp_maps::decl::MapDecl;
use net_core::design::Design;
use pipe_parts::pipe_draft::{PipelinePlan, pipeline_plan_of, stage_sources};
use row_plan::RowPlan;
use std::alloc::Global;

// The design of a pipeline plan.
fn design_of(
    alloc: Global,
    pipeline_plan: &PipelinePlan<'_>,
    decls: &[MapDecl],
) -> Result<Design, LinkError>
    requires pipeline_plan { IsPipelinePlan pipeline_plan.now }
    requires decls { decls.now ≡ decls_in pipeline_plan.now }
    ensures design { IfOk result (λ n. IsPipelineOf (program_in pipeline_plan.now) (plan_in pipeline_plan.now) (decls_in pipeline_plan.now) (netlist_of n)) }
    ensures formed { IfOk result (λ n. IsWellFormed (netlist_of n)) }
    ensures apart { IfOk result (λ n. IsTrue (no_product_chains (netlist_of n))) }
    ensures large { IsErrOf result link.TooMany → IsTooLarge (program_in pipeline_plan.now) (plan_in pipeline_plan.now) (decls_in pipeline_plan.now) }
{
    let places = stage_sources(alloc, pipeline_plan)?;
    let words = changed_words(alloc, &pipeline_plan.program.frame)?;
    let parts = parts(alloc, pipeline_plan, decls, &places, &words)?;
    link_pipeline(alloc, &pipeline_plan.sizes, words.len() as u32, &parts)
}

/// The design of a program: a pipeline with a place for each row of its plan, in which packets overlap and operate on maps.
///
/// What it does says [`pipe_net::pipe_clocks::laws::clocks_go_on`]. It is well formed, and no product stands inside an operand of another in one clock. Refused is a program that has too many
/// sites, a number past the first row that is not 0, or a pipeline with too many nets.
pub fn pipeline(
    alloc: Global,
    program: &CellProgram,
    plan: &RowPlan,
    decls: &[MapDecl],
) -> Result<Design, PipelineError>
    requires { IsForPipe (program_of program.now) plan.now decls.now }
    ensures design { IfOk result (λ n. IsPipelineOf (program_of program.now) plan.now decls.now (netlist_of n)) }
    ensures formed { IfOk result (λ n. IsWellFormed (netlist_of n)) }
    ensures apart { IfOk result (λ n. IsTrue (no_product_chains (netlist_of n))) }
    ensures sites { most_sites < length program.now.sites.items → IsErrOf result error.TooManySites }
    ensures only_sites { IsErrOf result error.TooManySites → most_sites < length program.now.sites.items }
    ensures late { length program.now.sites.items ≤ most_sites → ¬ AreEarly (program_of program.now) (slice_index plan.now.rows) → IsErrOf result error.LateNumber }
    ensures only_late { IsErrOf result error.LateNumber → ¬ AreEarly (program_of program.now) (slice_index plan.now.rows) }
    ensures large { IsErrOf result error.TooMany → IsTooLarge (program_of program.now) plan.now decls.now }
{
    let pipeline_plan = pipeline_plan_of(alloc, program, plan, decls)?;
    let design = design_of(alloc, &pipeline_plan, decls)?;
    Ok(design)
}
