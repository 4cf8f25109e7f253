//! The keys of a packet's own updates.

ghost use Rattle.std.specs.Prelude.{◌≡◌, ◌<◌, IfOk, length};
ghost use Rattle.hazard_core.specs.cell_core.Sites.{site_at};
ghost use Rattle.hazard_core.specs.Tables.{decl_of};
ghost use Rattle.place_parts.specs.MarkParts.Places.{IsMarkLayout, HaveOperands, program_in, reads_in};
ghost use Rattle.place_parts.specs.MarkParts.Owns.{is_own, AreOwns, AreOwnLists};

use crate::mark_parts::layout::MarkLayout;
use block_core::name::Name;
use hazard_core::cell_core::xdp_state::xdp_maps::decl::{MapDecl, MapKind};
use hazard_core::site::{is_update, site_at};
use overlay_net::site_operands::SiteNets;
use pipe_net::parts::Part;
use read_net::touch_net::change::OwnKey;
use std::alloc::{AllocError, Global};

/// The declaration of the map of a site.
pub(crate) fn decl_at<'a>(layout: &MarkLayout<'a>, j: usize) -> &'a MapDecl
    requires layout { IsMarkLayout layout.now }
    requires site { j < length (program_in layout.now).sites }
    ensures { result.now ≡ decl_of layout.now.decls.now (site_at (program_in layout.now).sites j).map }
{
    let map = site_at(layout.program, j).map;
    &layout.decls[map as usize]
}

// Whether a site updates a hash with keys of so many bytes.
fn is_own(layout: &MarkLayout<'_>, bytes: u32, j: usize) -> bool
    requires layout { IsMarkLayout layout.now }
    requires site { j < length (program_in layout.now).sites }
    ensures { result ≡ is_own (program_in layout.now) layout.now.decls.now bytes j }
{
    let decl = decl_at(layout, j);
    is_update(site_at(layout.program, j).act) && decl.kind == MapKind::Hash && decl.key == bytes
}

// The keys of the packet's updates of hashes with keys of so many bytes.
fn own_keys<'a>(
    alloc: Global,
    layout: &MarkLayout<'_>,
    sites: &'a [SiteNets<Name<Part>>],
    bytes: u32,
) -> Result<Vec<OwnKey<'a, Name<Part>>>, AllocError>
    requires layout { IsMarkLayout layout.now }
    requires operands { HaveOperands layout.now sites.now }
    ensures { IfOk result (λ owns. AreOwns layout.now sites.now bytes owns.items) }
{
    let mut all = Vec::new(alloc);
    for j in 0..layout.program.sites.len() as u32 {
        if is_own(layout, bytes, j as usize) {
            all.push(OwnKey {
                site: j,
                key: &sites[j as usize].key,
            })?;
        }
    }
    Ok(all)
}

/// For each of these sites the keys of the packet's updates with keys as long as its own.
pub(crate) fn own_lists<'a>(
    alloc: Global,
    layout: &MarkLayout<'_>,
    sites: &'a [SiteNets<Name<Part>>],
    k: u32,
    reads: &[u32],
) -> Result<Vec<Vec<OwnKey<'a, Name<Part>>>>, AllocError>
    requires layout { IsMarkLayout layout.now }
    requires operands { HaveOperands layout.now sites.now }
    requires reads { reads.now ≡ reads_in layout.now k }
    ensures { IfOk result (λ lists. AreOwnLists layout.now sites.now k lists.items) }
{
    let mut lists = Vec::new(alloc);
    for i in 0..reads.len() {
        let bytes = decl_at(layout, reads[i] as usize).key;
        let owns = own_keys(alloc, layout, sites, bytes)?;
        lists.push(owns)?;
    }
    Ok(lists)
}
