//! The part of a place that says whether its packet must reload.

ghost use Rattle.std.specs.Prelude.{◌≡◌, ◌<◌, ◌≤◌, IfOk, length};
ghost use Rattle.block_core.specs.View.{block_of};
ghost use Rattle.place_parts.specs.MarkParts.Places.{IsMarkLayout, HaveOperands, program_in, reads_in};
ghost use Rattle.place_parts.specs.MarkParts.Reload.{IsGuard, AreMarkNets, IsReloadPart};

use crate::mark_parts::layout::MarkLayout;
use crate::mark_parts::reads::{read_sites, register};
use block_core::name::Name;
use hazard_core::pending::row_in;
use hazard_core::site::site_at;
use overlay_net::cell_nets::operand::Operand;
use overlay_net::site_operands::SiteNets;
use pipe_net::parts::Part;
use read_net::mark_net::reload::{ReloadPart, reload};
use read_net::touch_net::marks::MarkNets;
use std::alloc::{AllocError, Global};

// What stands for the guard of a site, where that is known at a place.
fn guard(
    layout: &MarkLayout<'_>,
    sites: &[SiteNets<Name<Part>>],
    k: u32,
    j: usize,
) -> Option<Operand<Name<Part>>>
    requires layout { IsMarkLayout layout.now }
    requires operands { HaveOperands layout.now sites.now }
    requires site { j < length (program_in layout.now).sites }
    ensures { IsGuard layout.now sites.now k j result }
{
    let cell = site_at(layout.program, j).guard;
    if row_in(layout.rows, cell as usize) <= k {
        Some(sites[j].guard)
    } else {
        None
    }
}

// What stands for the marks at these sites.
fn mark_nets(
    alloc: Global,
    layout: &MarkLayout<'_>,
    sites: &[SiteNets<Name<Part>>],
    k: u32,
    reads: &[u32],
) -> Result<Vec<MarkNets<Name<Part>>>, AllocError>
    requires layout { IsMarkLayout layout.now }
    requires operands { HaveOperands layout.now sites.now }
    requires place { k ≤ layout.now.sizes.commit }
    requires reads { reads.now ≡ reads_in layout.now k }
    ensures { IfOk result (λ reloads. AreMarkNets layout.now sites.now k reloads.items) }
{
    let mut nets = Vec::new(alloc);
    for i in 0..reads.len() {
        nets.push(MarkNets {
            marked: register(&layout.sizes, k, i),
            guard: guard(layout, sites, k, reads[i] as usize),
        })?;
    }
    Ok(nets)
}

/// The part of a place that says whether its packet must reload, by the operands of all sites there.
pub fn reload_part(
    alloc: Global,
    layout: &MarkLayout<'_>,
    sites: &[SiteNets<Name<Part>>],
    k: u32,
) -> Result<ReloadPart<Name<Part>>, AllocError>
    requires layout { IsMarkLayout layout.now }
    requires operands { HaveOperands layout.now sites.now }
    requires place { k ≤ layout.now.sizes.commit }
    ensures { IfOk result (λ r. IsReloadPart layout.now sites.now k r.reload (block_of r.block)) }
{
    let reads = read_sites(alloc, layout, k)?;
    let nets = mark_nets(alloc, layout, sites, k, &reads)?;
    let part = reload(alloc, layout.sizes.reload(k), &nets)?;
    Ok(part)
}
