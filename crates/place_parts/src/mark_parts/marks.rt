//! The part that keeps the marks of the packet at a place.

ghost use Rattle.std.specs.Prelude.{◌≡◌, ◌<◌, ◌≤◌, ◌^◌, IfOk, length, slice_index};
ghost use Rattle.block_core.specs.View.{block_of};
ghost use Rattle.place_parts.specs.MarkParts.Places.{IsMarkLayout, HaveOperands, program_in, reads_in, reads_before};
ghost use Rattle.place_parts.specs.MarkParts.Owns.{AreOwnLists, AreOwns, bytes_at};
ghost use Rattle.place_parts.specs.MarkParts.Marks.{HaveChanges, comes_by, IsMarkBefore, IsMark, AreMarks, IsMarksPart};

use crate::mark_parts::layout::MarkLayout;
use crate::mark_parts::owns::{decl_at, own_lists};
use crate::mark_parts::reads::{read_sites, register};
use block_core::block::Block;
use block_core::name::Name;
use commit_net::change_net::change::ChangePart;
use control_net::names::{Wire, wire_name};
use hazard_core::site::site_at;
use overlay_net::cell_nets::operand::Operand;
use overlay_net::site_operands::SiteNets;
use pipe_net::parts::Part;
use read_net::mark_net::marks::marks;
use read_net::mark_net::nets::MarkSite;
use read_net::touch_net::change::OwnKey;
use std::alloc::{AllocError, Global};

// The sites at which the packet has read that is at the place before; a packet comes into the first one without having read.
fn reads_before(alloc: Global, layout: &MarkLayout<'_>, k: u32) -> Result<Vec<u32>, AllocError>
    requires { IsMarkLayout layout.now }
    ensures { IfOk result (λ sites. sites.items ≡ reads_before layout.now k) }
{
    if k == 0 {
        Ok(Vec::new(alloc))
    } else {
        read_sites(alloc, layout, k - 1)
    }
}

// The mark of a site at the place before: a register there, where the packet has read before.
fn mark_before(layout: &MarkLayout<'_>, before: &[u32], k: u32, site: u32) -> Operand<Name<Part>>
    requires layout { IsMarkLayout layout.now }
    requires place { k ≤ layout.now.sizes.commit }
    requires reads { before.now ≡ reads_before layout.now k }
    ensures { IsMarkBefore layout.now site k result }
{
    for i in 0..before.len() {
        if before[i] == site {
            return register(&layout.sizes, k - 1, i);
        }
    }
    Operand::Known(0)
}

// The net that says whether a map changes for the packet at a place: at the commit place the host alone changes it.
fn comes(layout: &MarkLayout<'_>, k: u32, change: &ChangePart<Name<Part>>) -> Name<Part>
    ensures { result ≡ comes_by layout.now.sizes k change.now }
{
    if k == layout.sizes.commit {
        change.by_host
    } else {
        change.any
    }
}

// What stands for the i-th of the sites at which the packet at a place has read.
fn mark_site<'a>(
    layout: &MarkLayout<'a>,
    sites: &'a [SiteNets<Name<Part>>],
    changes: &'a [ChangePart<Name<Part>>],
    owns: &'a [OwnKey<'a, Name<Part>>],
    before: &[u32],
    k: u32,
    i: usize,
    j: u32,
) -> MarkSite<'a, Name<Part>>
    requires layout { IsMarkLayout layout.now }
    requires operands { HaveOperands layout.now sites.now }
    requires changes { HaveChanges layout.now changes.now }
    requires place { k ≤ layout.now.sizes.commit }
    requires known { i < length (reads_in layout.now k) }
    requires site { j ≡ slice_index (reads_in layout.now k) i }
    requires there { j < length (program_in layout.now).sites }
    requires few { i < 2 ^ 31 }
    requires owns { AreOwns layout.now sites.now (bytes_at layout.now k i) owns.now }
    requires before { before.now ≡ reads_before layout.now k }
    ensures { IsMark layout.now sites.now changes.now k i result }
{
    let site = site_at(layout.program, j as usize);
    let change = &changes[site.map as usize];
    MarkSite {
        site: j,
        act: site.act,
        decl: decl_at(layout, j as usize),
        nets: &sites[j as usize],
        owns,
        was: register(&layout.sizes, k, i),
        before: mark_before(layout, before, k, j),
        comes: Operand::Net(comes(layout, k, change), 1),
        change: change.nets(),
    }
}

// What stands for all of them.
fn mark_sites<'a>(
    alloc: Global,
    layout: &MarkLayout<'a>,
    sites: &'a [SiteNets<Name<Part>>],
    changes: &'a [ChangePart<Name<Part>>],
    owns: &'a [Vec<OwnKey<'a, Name<Part>>>],
    k: u32,
    reads: &[u32],
) -> Result<Vec<MarkSite<'a, Name<Part>>>, AllocError>
    requires layout { IsMarkLayout layout.now }
    requires operands { HaveOperands layout.now sites.now }
    requires changes { HaveChanges layout.now changes.now }
    requires place { k ≤ layout.now.sizes.commit }
    requires owns { AreOwnLists layout.now sites.now k owns.now }
    requires reads { reads.now ≡ reads_in layout.now k }
    ensures { IfOk result (λ marks. AreMarks layout.now sites.now changes.now k marks.items) }
{
    let before = reads_before(alloc, layout, k)?;
    let mut all = Vec::new(alloc);
    for i in 0..reads.len() {
        let mark = mark_site(layout, sites, changes, &owns[i], &before, k, i, reads[i]);
        all.push(mark)?;
    }
    Ok(all)
}

// The block of the marks, by the keys of the packet's updates.
fn marks_over(
    alloc: Global,
    layout: &MarkLayout<'_>,
    sites: &[SiteNets<Name<Part>>],
    changes: &[ChangePart<Name<Part>>],
    owns: &[Vec<OwnKey<'_, Name<Part>>>],
    k: u32,
    reads: &[u32],
) -> Result<Block<Name<Part>>, AllocError>
    requires layout { IsMarkLayout layout.now }
    requires operands { HaveOperands layout.now sites.now }
    requires changes { HaveChanges layout.now changes.now }
    requires place { k ≤ layout.now.sizes.commit }
    requires owns { AreOwnLists layout.now sites.now k owns.now }
    requires reads { reads.now ≡ reads_in layout.now k }
    ensures { IfOk result (λ b. IsMarksPart layout.now sites.now changes.now k (block_of b)) }
{
    let all = mark_sites(alloc, layout, sites, changes, owns, k, reads)?;
    let sizes = layout.sizes;
    let advance = wire_name(sizes.control(), Wire::Advances);
    let block = marks(alloc, sizes.marks(k), advance, &all)?;
    Ok(block)
}

/// The block of the marks of the packet at a place, by the operands of all sites there and by what changes in each map.
pub fn marks_block(
    alloc: Global,
    layout: &MarkLayout<'_>,
    sites: &[SiteNets<Name<Part>>],
    changes: &[ChangePart<Name<Part>>],
    k: u32,
) -> Result<Block<Name<Part>>, AllocError>
    requires layout { IsMarkLayout layout.now }
    requires operands { HaveOperands layout.now sites.now }
    requires changes { HaveChanges layout.now changes.now }
    requires place { k ≤ layout.now.sizes.commit }
    ensures { IfOk result (λ b. IsMarksPart layout.now sites.now changes.now k (block_of b)) }
{
    let reads = read_sites(alloc, layout, k)?;
    let owns = own_lists(alloc, layout, sites, k, &reads)?;
    let block = marks_over(alloc, layout, sites, changes, &owns, k, &reads)?;
    Ok(block)
}
