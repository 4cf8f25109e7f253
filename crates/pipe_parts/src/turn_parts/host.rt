//! The part that says what the host may do.

ghost use Rattle.std.specs.Prelude.{◌≡◌, ◌<◌, IfOk, map};
ghost use Rattle.net_core.specs.View.{tree_of};
ghost use Rattle.block_core.specs.View.{block_of};
ghost use Rattle.commit_net.specs.MapBlock.Forms.{FormFits};
ghost use Rattle.commit_net.specs.MapBlock.Stored.{host_may};
ghost use Rattle.pipe_net.specs.Parts as part;
ghost use Rattle.pipe_net.specs.Parts.{IsSmall};
ghost use Rattle.pipe_parts.specs.PipeDraft.PipelinePlan.{IsPipelinePlan};
ghost use Rattle.pipe_parts.specs.TurnParts.Nets.{idle_of, writes_of, present_of, host_nets_of};
ghost use Rattle.pipe_parts.specs.TurnParts.Parts.{IsHostPart, AreMay};

use crate::pipe_draft::PipelinePlan;
use block_core::block::Block;
use block_core::name::Name;
use commit_net::map_block::{ArrayBlock, HashBlock, MapBlock, MapForm};
use control_net::ring_net::names::{Register, register_name};
use hazard_core::cell_core::xdp_state::xdp_maps::decl::MapKind;
use net_core::tree::Expr;
use pipe_net::parts::{Part, Sizes};
use std::alloc::{AllocError, Global};
use turn_net::host_net::host::host;
use turn_net::host_net::names::{HostNets, Wire, wire_name};

/// The register that says whether the commit place holds a packet.
pub(crate) fn present(sizes: &Sizes) -> Name<Part>
    requires { IsSmall sizes.now }
    ensures { result ≡ present_of sizes.now }
{
    register_name(sizes.control(), Register::Holds(sizes.commit))
}

/// The wire that says whether the host writes.
pub(crate) fn writes(sizes: &Sizes) -> Name<Part>
    requires { IsSmall sizes.now }
    ensures { result ≡ writes_of sizes.now }
{
    wire_name(sizes.host(), Wire::Writes)
}

// The nets of other parts by which the host is heard.
fn host_nets(sizes: &Sizes) -> HostNets<Part>
    requires { IsSmall sizes.now }
    ensures { result ≡ host_nets_of sizes.now }
{
    HostNets {
        partial: Name::Register(sizes.gather(), 0),
        present: present(sizes),
        done: Name::Register(sizes.action(), 0),
        control: sizes.control(),
    }
}

// Whether the host may write the word that it names, if this is one of a map.
fn may_write(
    alloc: Global,
    sizes: &Sizes,
    form: &MapForm,
    m: u32,
) -> Result<Expr<Name<Part>>, AllocError>
    requires small { IsSmall sizes.now }
    requires map { m < sizes.now.maps }
    requires form_fits { FormFits form.now }
    ensures { IfOk result (λ e. tree_of e ≡ host_may form.now (part.own sizes.now m) (idle_of sizes.now)) }
{
    let own = sizes.own(m);
    let idle = wire_name(sizes.host(), Wire::Idle);
    match form.decl.kind {
        MapKind::Hash => HashBlock::of(form.number, &form.decl).host_may(alloc, own, idle),
        MapKind::Array => ArrayBlock::of(form.number, &form.decl).host_may(alloc, own, idle),
    }
}

// So of each map.
fn all_may(
    alloc: Global,
    pipeline_plan: &PipelinePlan<'_>,
) -> Result<Vec<Expr<Name<Part>>>, AllocError>
    requires { IsPipelinePlan pipeline_plan.now }
    ensures { IfOk result (λ may. AreMay pipeline_plan.now (map tree_of may.items)) }
{
    let mut may = Vec::new(alloc);
    for m in 0..pipeline_plan.sizes.maps {
        may.push(may_write(
            alloc,
            &pipeline_plan.sizes,
            &pipeline_plan.forms[m as usize],
            m,
        )?)?;
    }
    Ok(may)
}

/// The block of the part, by what each map lets the host write.
pub(crate) fn host_block(
    alloc: Global,
    pipeline_plan: &PipelinePlan<'_>,
) -> Result<Block<Name<Part>>, AllocError>
    requires { IsPipelinePlan pipeline_plan.now }
    ensures { IfOk result (λ b. IsHostPart pipeline_plan.now (block_of b)) }
{
    let may = all_may(alloc, pipeline_plan)?;
    let nets = host_nets(&pipeline_plan.sizes);
    let block = host(alloc, pipeline_plan.sizes.host(), &nets, may)?;
    Ok(block)
}
