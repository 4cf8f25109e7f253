// Nodes, their order, and where edges lead.

ghost use Rattle.std.specs.Prelude.{◌≡◌, slice_index, IfOk};
ghost use Rattle.unfold_core.specs.Loops.{holds};
ghost use Rattle.unfold_core.specs.Nodes.{differs, comes_before, next_copy, reached};

use crate::nesting::Loop;
use std::alloc::{AllocError, Global};
use std::marker::Model;

/// The most copies of a loop.
pub const MOST_COPIES: u16 = 64;

/// A place, in units, and its copy of each loop of the program, in the order of their heads: 0 to 63, and 0 of a loop that does not hold
/// the place. Contracts see it as a `GraphNode`.
#[derive(Debug, Drop)]
pub struct Node {
    place: u32,
    copies: Vec<u8>,
}

impl Model for Node {
    ghost use Rattle.unfold_core.specs.Nodes.{GraphNode};

    ghost Value = { GraphNode };

    ghost view = { λ n. record { place = n.place; copies = n.copies.items } };
}

impl Node {
    ghost use Rattle.unfold_core.specs.Nodes.{start};

    /// The node that a run begins at: place 0, in copy 0 of each loop.
    pub fn start(alloc: Global, loops: &[Loop]) -> Result<Node, AllocError>
        ensures { IfOk result (λ node. node ≡ start loops.now) }
    {
        let copies = vec![in alloc; 0; loops.len()]?;
        Ok(Node { place: 0, copies })
    }

    /// The place, in units.
    pub fn place(&self) -> u32
        ensures { result ≡ self.now.place }
    {
        self.place
    }

    /// The copy of each loop, in the order of their heads.
    pub fn copies(&self) -> &[u8]
        ensures { result.now ≡ self.now.copies }
    {
        &self.copies
    }
}

// Whether a loop holds a place.
fn holds(l: Loop, place: u32) -> bool
    ensures { result ≡ holds l place }
{
    l.head <= place && place <= l.last
}

// Whether a loop holds two places in different copies.
fn differs(l: Loop, p: u32, c: u8, q: u32, d: u8) -> bool
    ensures { result ≡ differs l p c q d }
{
    holds(l, p) && holds(l, q) && c != d
}

// The copy of the loop at an index.
fn copy_at(copies: &[u8], index: usize) -> u8
    ensures { result ≡ slice_index copies.now index }
{
    if index < copies.len() {
        copies[index]
    } else {
        0
    }
}

/// Whether a node of a program comes before another one: by their copies of the loops that hold both places, outermost first, and then by
/// place.
pub fn comes_before(loops: &[Loop], a: &Node, b: &Node) -> bool
    ensures { result ≡ comes_before loops.now a.now b.now }
{
    for k in 0..loops.len() {
        let c = copy_at(&a.copies, k);
        let d = copy_at(&b.copies, k);
        if differs(loops[k], a.place, c, b.place, d) {
            return c < d;
        }
    }
    a.place < b.place
}

// The copy of a loop at the end of an edge.
fn next_copy(l: Loop, from: u32, to: u32, copy: u8) -> u16
    ensures { result ≡ next_copy l from to copy }
{
    if holds(l, to) && holds(l, from) {
        u16::from(copy) + if to == l.head { 1 } else { 0 }
    } else {
        0
    }
}

/// The node at the end of an edge to a place: an edge into a loop starts at copy 0, a jump to its head from inside raises the copy, and
/// leaving drops it. There is none where it would be copy 64.
pub fn reached(
    alloc: Global,
    loops: &[Loop],
    from: &Node,
    to: u32,
) -> Result<Option<Node>, AllocError>
    ensures { IfOk result (λ node. node ≡ reached loops.now from.now to) }
{
    let mut copies = Vec::new(alloc);
    for k in 0..loops.len() {
        let copy = next_copy(loops[k], from.place, to, copy_at(&from.copies, k));
        if copy >= MOST_COPIES {
            return Ok(None);
        }
        copies.push(copy as u8)?;
    }
    Ok(Some(Node { place: to, copies }))
}
