// Nodes that an edge leads to and whose turn is to come, in unfolded order.

ghost use Rattle.std.specs.Prelude.{◌≡◌, ◌≤◌, ◌∷◌, [], length, All, OnOk, IfOk};
ghost use Rattle.unfold_core.specs.Nodes.{IsNode};
ghost use Rattle.unfold_core.specs.Graphs.{AreOrdered, first_point};
ghost use Rattle.unfold_core.specs.Pending.{number_of, with_end, with_ends};

use crate::edges::Point;
use crate::nesting::Loop;
use crate::nodes::{Node, comes_before};
use kind_core::{Kinds, Offsets, join_into};
use std::alloc::{AllocError, Global};
use std::collections::VecDeque;

/// The number of a node among nodes in unfolded order: how many of them come before it.
pub(crate) fn number_of(loops: &[Loop], nodes: &[Point], node: &Node) -> usize
    requires nodes { AreOrdered loops.now nodes.now }
    requires node { IsNode loops.now node.now }
    ensures number { result ≡ number_of loops.now node.now nodes.now }
    ensures inside { result ≤ length nodes.now }
{
    nodes.partition_point(|p| comes_before(loops, &p.node, node))
}

// The same among those that are pending.
fn place_of(loops: &[Loop], pending: &VecDeque<Point>, node: &Node) -> usize
    requires pending { AreOrdered loops.now pending.now.items }
    requires node { IsNode loops.now node.now }
    ensures { result ≡ number_of loops.now node.now pending.now.items }
{
    pending.partition_point(|p| comes_before(loops, &p.node, node))
}

/// The start alone.
pub(crate) fn at_start(
    alloc: Global,
    offsets: Offsets,
    loops: &[Loop],
) -> Result<VecDeque<Point>, AllocError>
    ensures { IfOk result (λ pending. pending.items ≡ first_point offsets loops.now ∷ []) }
{
    let mut pending = VecDeque::new(alloc);
    pending.push_back(Point {
        node: Node::start(alloc, loops)?,
        kinds: Kinds::start(offsets),
    })?;
    Ok(pending)
}

// Adds the end of an edge: where its node is pending, what is known meets there.
fn add_end(loops: &[Loop], pending: &mut VecDeque<Point>, end: Point) -> Result<(), AllocError>
    requires pending { AreOrdered loops.now pending.old.items }
    requires node { IsNode loops.now end.node }
    ensures { OnOk result (pending.new.items ≡ with_end loops.now pending.old.items end) }
{
    let at = place_of(loops, pending, &end.node);
    if at < pending.len() && !comes_before(loops, &end.node, &pending[at].node) {
        join_into(&mut pending[at].kinds, &end.kinds);
        return Ok(());
    }
    pending.insert(at, end)?;
    Ok(())
}

/// Adds the ends of the edges of a node.
pub(crate) fn add_ends(
    loops: &[Loop],
    pending: &mut VecDeque<Point>,
    ends: Vec<Point>,
) -> Result<(), AllocError>
    requires pending { AreOrdered loops.now pending.old.items }
    requires nodes { All (λ e. IsNode loops.now e.node) ends.items }
    ensures { OnOk result (pending.new.items ≡ with_ends loops.now pending.old.items ends.items) }
{
    for end in ends {
        add_end(loops, pending, end)?;
    }
    Ok(())
}
