//! The blocks of all parts in their order.

ghost use Rattle.std.specs.Prelude.{◌≡◌, IfOk, length, map as map_list};
ghost use Rattle.block_core.specs.View.{block_of};
ghost use Rattle.pipe_design.specs.Order.{blocks_in, pairwise};
ghost use Rattle.pipe_design.specs.Parts.{blocks_of_map, lists_of};

use crate::map_parts::parts::PartsOfMap;
use crate::parts::Others;
use block_core::block::Block;
use block_core::name::Name;
use commit_net::change_net::change::ChangePart;
use commit_net::change_net::pointed::PointedWords;
use pipe_net::parts::Part;
use pipe_parts::slot_parts::slots::SlotsPart;
use place_parts::frame_parts::parts::FrameParts;
use std::alloc::{AllocError, Global};
use turn_net::target_net::targets::TargetPart;

// The blocks of the parts that show slots.
fn slot_blocks(alloc: Global, parts: Vec<SlotsPart>) -> Result<Vec<Block<Name<Part>>>, AllocError>
    ensures { IfOk result (λ r. map_list block_of r.items ≡ map_list (λ x. block_of x.block) parts.items) }
{
    let mut blocks = Vec::new(alloc);
    for part in parts {
        blocks.push(part.block)?;
    }
    Ok(blocks)
}

// Of those that show words under pointers.
fn word_blocks(
    alloc: Global,
    parts: Vec<PointedWords<Name<Part>>>,
) -> Result<Vec<Block<Name<Part>>>, AllocError>
    ensures { IfOk result (λ r. map_list block_of r.items ≡ map_list (λ x. block_of x.block) parts.items) }
{
    let mut blocks = Vec::new(alloc);
    for part in parts {
        blocks.push(part.block)?;
    }
    Ok(blocks)
}

// Of those that say which slots operations write.
fn target_blocks(
    alloc: Global,
    parts: Vec<TargetPart<Part>>,
) -> Result<Vec<Block<Name<Part>>>, AllocError>
    ensures { IfOk result (λ r. map_list block_of r.items ≡ map_list (λ x. block_of x.block) parts.items) }
{
    let mut blocks = Vec::new(alloc);
    for part in parts {
        blocks.push(part.block)?;
    }
    Ok(blocks)
}

// Of those of maps, six of each.
fn map_blocks(
    alloc: Global,
    parts: Vec<PartsOfMap>,
    changes: Vec<ChangePart<Name<Part>>>,
) -> Result<Vec<Block<Name<Part>>>, AllocError>
    requires { length changes.items ≡ length parts.items }
    ensures { IfOk result (λ r. map_list block_of r.items ≡ pairwise blocks_of_map parts.items changes.items) }
{
    let mut blocks = Vec::new(alloc);
    let mut rest = changes;
    for part in parts {
        let PartsOfMap { table, written } = part;
        blocks.push(table.finds)?;
        blocks.push(table.fetches)?;
        blocks.push(table.asks)?;
        blocks.push(table.stores)?;
        blocks.push(written.block)?;
        blocks.push(rest.remove(0).block)?;
    }
    Ok(blocks)
}

/// The blocks of all parts, in lists that stand in the order of parts.
pub(crate) fn in_lists(
    alloc: Global,
    slots: Vec<SlotsPart>,
    others: Others,
) -> Result<Vec<Vec<Block<Name<Part>>>>, AllocError>
    requires { length others.maps.changes.items ≡ length others.maps.maps.items }
    ensures { IfOk result (λ r. blocks_in r.items ≡ lists_of slots.items others) }
{
    let Others {
        frames,
        reloads,
        targets,
        host,
        action,
        commits,
        maps,
        marks,
        places,
    } = others;
    let FrameParts {
        scatter,
        returns,
        sources,
        control,
        gather,
        exit,
    } = frames;
    let first = vec![in alloc; scatter.block]?;
    let sources = vec![in alloc; returns.block, sources.block]?;
    let slots = slot_blocks(alloc, slots)?;
    let words = word_blocks(alloc, places.words)?;
    let targets = target_blocks(alloc, targets)?;
    let actions = vec![in alloc; host, action, commits]?;
    let operations = map_blocks(alloc, maps.maps, maps.changes)?;
    let control = vec![in alloc; control.block]?;
    let answers = vec![in alloc; maps.value, gather.block, exit.block]?;
    let all = vec![in alloc;
        first,
        reloads,
        sources,
        slots,
        words,
        targets,
        actions,
        operations,
        control,
        marks,
        answers,
        places.places,
    ]?;
    Ok(all)
}
