//! A packet's earlier operations on the map of a site.

ghost use Rattle.std.specs.Prelude.{◌≡◌, ◌<◌, All, length, slice_index, IfOk};
ghost use Rattle.hazard_core.specs.cell_core.View.{program_of};
ghost use Rattle.hazard_core.specs.StageValues.{pending};
ghost use Rattle.read_net.specs.Sites.{sites_of};
ghost use Rattle.stage_net.specs.Nets.{IsOwnOf};

use crate::row::ProgramRow;
use hazard_core::cell_core::program::CellProgram;
use hazard_core::pending::is_pending;
use hazard_core::site::site_at;
use overlay_net::site_operands::SiteNets;
use read_net::sites::OwnSite;
use std::alloc::{AllocError, Global};

/// What stands for the operation at a site.
pub(crate) fn own_site<'a, N>(
    program: &CellProgram,
    sites: &'a [SiteNets<N>],
    j: u32,
) -> OwnSite<'a, N>
    requires site { j < length program.now.sites.items }
    requires count { length sites.now ≡ length program.now.sites.items }
    ensures own { IsOwnOf (program_of program.now) sites.now result }
    ensures number { result.site ≡ j }
{
    OwnSite {
        site: j,
        act: site_at(program, j as usize).act,
        nets: &sites[j as usize],
    }
}

/// The operations before a site that what it reads in a row is to see.
pub(crate) fn earlier<'a, N: Copy>(
    alloc: Global,
    at: &ProgramRow<'_>,
    sites: &'a [SiteNets<N>],
    j: u32,
) -> Result<Vec<OwnSite<'a, N>>, AllocError>
    requires site { j < length at.now.program.now.sites.items }
    requires count { length sites.now ≡ length at.now.program.now.sites.items }
    ensures own { IfOk result (λ r. All (IsOwnOf (program_of at.now.program.now) sites.now) r.items) }
    ensures sites { IfOk result (λ r. sites_of r.items ≡ pending (program_of at.now.program.now) (slice_index at.now.rows.now) at.now.row j) }
{
    let mut all = Vec::new(alloc);
    for i in 0..j {
        if is_pending(at.program, at.rows, at.row, j as usize, i as usize) {
            all.push(own_site(at.program, sites, i))?;
        }
    }
    Ok(all)
}
