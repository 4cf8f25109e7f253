//! The parts that come before what a commit asks, of whichever map.

ghost use Rattle.std.specs.Prelude.{◌≡◌, ◌≤◌, All, IfOk, length};
ghost use Rattle.block_core.specs.View.{block_of};
ghost use Rattle.overlay_net.specs.hazard_core.Commits.{word_count};
ghost use Rattle.commit_net.specs.Choosing.{HasOperands};
ghost use Rattle.commit_net.specs.Fetching.{IsFetch, fetched_words};
ghost use Rattle.commit_net.specs.Wholes.{IsSlotPart};
ghost use Rattle.commit_net.specs.MapBlock.Forms.{FormFits};

use crate::choosing::CommitNets;
use crate::fetch::{fetch, fetched_words};
use crate::map_block::form::MapForm;
use crate::map_block::parts::MapParts;
use crate::whole::commit_slot;
use block_core::block::Block;
use block_core::name::{Name, Part};
use hash_net::array_net::words::word_count;
use std::alloc::{AllocError, Global};

/// The blocks that give the slot that is written and the words of the value there, and their nets.
#[derive(Drop)]
pub(crate) struct Found<N: Drop> {
    pub(crate) finds: Block<N>,
    pub(crate) fetches: Block<N>,
    pub(crate) slot: N,
    pub(crate) words: Vec<N>,
}

/// They are built alike for each kind of map, but for the memory that has the first words of values.
pub(crate) fn find_words<P: Part>(
    alloc: Global,
    form: &MapForm,
    first: u32,
    parts: MapParts<P>,
    sites: &[CommitNets<'_, Name<P>>],
) -> Result<Found<Name<P>>, AllocError>
    requires form_fits { FormFits form.now }
    requires few { first ≤ 15 }
    requires operands { All HasOperands sites.now }
    ensures finds { IfOk result (λ r. IsSlotPart parts.finder form.now.bits sites.now r.slot (block_of r.finds)) }
    ensures fetches { IfOk result (λ r. IsFetch parts.fetcher parts.own form.now.bits first form.now.decl.value 0 (word_count form.now.decl.value) r.slot (block_of r.fetches)) }
    ensures words { IfOk result (λ r. r.words.items ≡ fetched_words parts.fetcher (word_count form.now.decl.value)) }
    ensures count { IfOk result (λ r. length r.words.items ≡ word_count form.now.decl.value) }
{
    let bytes = form.decl.value;
    let count = word_count(bytes);
    let found = commit_slot(alloc, parts.finder, form.bits, sites)?;
    let slot = found.slot;
    let fetches = fetch(
        alloc,
        parts.fetcher,
        parts.own,
        form.bits,
        first,
        bytes,
        0,
        count,
        slot,
    )?;
    let words = fetched_words(alloc, parts.fetcher, count)?;
    Ok(Found {
        finds: found.block,
        fetches,
        slot,
        words,
    })
}
