//! All parts in their order.

ghost use Rattle.std.specs.Prelude.{ℕ, ◌≡◌, ◌^◌, ◌<◌, ◌≤◌, IfOk, List, length, map as map_list};
ghost use Rattle.block_core.specs.View.{block_of, Makes};
ghost use Rattle.pipe_net.specs.declared.parts.Sizes.{Sizes};
ghost use Rattle.pipe_net.specs.Parts.{part_place, part_count};
ghost use Rattle.pipe_design.specs.Order.{blocks_in, all_of, whole_of, AreNumbered};

use block_core::block::{Block, Placed};
use block_core::name::Name;
use pipe_net::parts::Part;
use std::alloc::{AllocError, Global};

// The blocks of these lists, one list after another.
fn flattened(
    alloc: Global,
    lists: Vec<Vec<Block<Name<Part>>>>,
) -> Result<Vec<Block<Name<Part>>>, AllocError>
    ensures { IfOk result (λ r. map_list block_of r.items ≡ all_of (blocks_in lists.items)) }
{
    let mut all = Vec::new(alloc);
    for list in lists {
        let mut list = list;
        all.append(&mut list)?;
    }
    Ok(all)
}

// The parts that have these blocks, by their numbers.
fn numbered(alloc: Global, blocks: Vec<Block<Name<Part>>>) -> Result<Vec<Placed<Part>>, AllocError>
    requires { length blocks.items < 2 ^ 32 }
    ensures { IfOk result (λ r. AreNumbered (map_list block_of blocks.items) r.items) }
{
    let mut all = Vec::new(alloc);
    for block in blocks {
        let part = Part {
            number: all.len() as u32,
        };
        all.push(Placed { part, block })?;
    }
    Ok(all)
}

/// All parts of a pipeline, whose blocks are those of these lists, one list after another.
pub(crate) fn in_order(
    alloc: Global,
    lists: Vec<Vec<Block<Name<Part>>>>,
) -> Result<Vec<Placed<Part>>, AllocError>
    requires { length (all_of (blocks_in lists.items)) < 2 ^ 32 }
    ensures { IfOk result (λ r. (z : Sizes) → length (all_of (blocks_in lists.items)) ≡ part_count z → Makes part_place r.items (whole_of z (blocks_in lists.items))) }
{
    let blocks = flattened(alloc, lists)?;
    let parts = numbered(alloc, blocks)?;
    Ok(parts)
}
