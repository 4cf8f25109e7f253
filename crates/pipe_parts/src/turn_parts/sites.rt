//! The sites at which the operations on a map may write, and the slots that updates of hashes took.

ghost use Rattle.std.specs.Prelude.{◌≡◌, ◌<◌, IfOk, length};
ghost use Rattle.hazard_core.specs.cell_core.Sites.{site_at};
ghost use Rattle.hazard_core.specs.Tables.{decl_of};
ghost use Rattle.pipe_parts.specs.PipeDraft.PipelinePlan.{program_in, plan_in, decls_in, IsPipelinePlan};
ghost use Rattle.pipe_parts.specs.PipeDraft.Places.{AreStageSources};
ghost use Rattle.pipe_parts.specs.TurnParts.Sites.{IsOwnOf, AreOwnOf, AreOwnLists, keeps_at, taken_in};

use crate::pipe_draft::{PipelinePlan, StageSources};
use block_core::name::Name;
use commit_net::target::TakenSlot;
use hazard_core::cell_core::site::Act;
use hazard_core::cell_core::xdp_state::xdp_maps::decl::{MapDecl, MapKind};
use hazard_core::site::site_at;
use overlay_net::cell_nets::operand::Operand;
use pipe_net::parts::Part;
use read_net::sites::OwnSite;
use std::alloc::{AllocError, Global};
use turn_net::nets::ActionShape;

/// The declaration of the map of a site.
pub(crate) fn decl_at<'a>(pipeline_plan: &'a PipelinePlan<'_>, site: u32) -> &'a MapDecl
    requires pipeline_plan { IsPipelinePlan pipeline_plan.now }
    requires site { site < length (program_in pipeline_plan.now).sites }
    ensures { result.now ≡ decl_of (decls_in pipeline_plan.now) (site_at (program_in pipeline_plan.now).sites site).map }
{
    let map = site_at(pipeline_plan.program, site as usize).map;
    &pipeline_plan.forms[map as usize].decl
}

// What stands for the operation at a site, by the operands at the commit place.
fn own_site<'a>(
    pipeline_plan: &PipelinePlan<'_>,
    at: &'a StageSources,
    site: u32,
) -> OwnSite<'a, Name<Part>>
    requires pipeline_plan { IsPipelinePlan pipeline_plan.now }
    requires at { AreStageSources pipeline_plan.now (plan_in pipeline_plan.now).commit at.now }
    requires site { site < length (program_in pipeline_plan.now).sites }
    ensures site { result.site ≡ site }
    ensures own { IsOwnOf pipeline_plan.now at.now (site_at (program_in pipeline_plan.now).sites site).map result }
{
    OwnSite {
        site,
        act: site_at(pipeline_plan.program, site as usize).act,
        nets: &at.sites[site as usize],
    }
}

// The sites on a map at which an operation may write, in order.
fn own_sites<'a>(
    alloc: Global,
    pipeline_plan: &PipelinePlan<'_>,
    at: &'a StageSources,
    m: u32,
) -> Result<Vec<OwnSite<'a, Name<Part>>>, AllocError>
    requires pipeline_plan { IsPipelinePlan pipeline_plan.now }
    requires at { AreStageSources pipeline_plan.now (plan_in pipeline_plan.now).commit at.now }
    ensures { IfOk result (λ owns. AreOwnOf pipeline_plan.now at.now m owns.items) }
{
    let mut owns = Vec::new(alloc);
    for i in 0..pipeline_plan.records.len() {
        let site = pipeline_plan.records[i];
        if site_at(pipeline_plan.program, site as usize).map == m {
            owns.push(own_site(pipeline_plan, at, site))?;
        }
    }
    Ok(owns)
}

/// Of each map the sites at which an operation may write.
pub(crate) fn own_lists<'a>(
    alloc: Global,
    pipeline_plan: &PipelinePlan<'_>,
    at: &'a StageSources,
) -> Result<Vec<Vec<OwnSite<'a, Name<Part>>>>, AllocError>
    requires pipeline_plan { IsPipelinePlan pipeline_plan.now }
    requires at { AreStageSources pipeline_plan.now (plan_in pipeline_plan.now).commit at.now }
    ensures { IfOk result (λ lists. AreOwnLists pipeline_plan.now at.now lists.items) }
{
    let mut lists = Vec::new(alloc);
    for m in 0..pipeline_plan.sizes.maps {
        lists.push(own_sites(alloc, pipeline_plan, at, m)?)?;
    }
    Ok(lists)
}

// Whether the operation at a site keeps the slot that it takes: an update of a hash.
fn keeps_at(pipeline_plan: &PipelinePlan<'_>, site: u32) -> bool
    requires pipeline_plan { IsPipelinePlan pipeline_plan.now }
    requires site { site < length (program_in pipeline_plan.now).sites }
    ensures { result ≡ keeps_at (program_in pipeline_plan.now) (decls_in pipeline_plan.now) site }
{
    match site_at(pipeline_plan.program, site as usize).act {
        Act::Update => matches!(decl_at(pipeline_plan, site).kind, MapKind::Hash),
        _ => false,
    }
}

/// The registers with the slots that updates of hashes took, in the order of their sites.
pub(crate) fn taken_slots(
    alloc: Global,
    pipeline_plan: &PipelinePlan<'_>,
    shape: &ActionShape,
) -> Result<Vec<TakenSlot<Name<Part>>>, AllocError>
    requires { IsPipelinePlan pipeline_plan.now }
    ensures { IfOk result (λ taken. taken.items ≡ taken_in pipeline_plan.now shape.now) }
{
    let action = pipeline_plan.sizes.action();
    let mut taken = Vec::new(alloc);
    for i in 0..pipeline_plan.records.len() {
        let site = pipeline_plan.records[i];
        if keeps_at(pipeline_plan, site) {
            let register = Name::Register(action, 1 + taken.len() as u32);
            let slot = Operand::Net(register, shape.slot_bits);
            taken.push(TakenSlot { site, slot })?;
        }
    }
    Ok(taken)
}
