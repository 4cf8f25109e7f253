//! Wires in which what is known of earlier ones stands in place of these.

ghost use Rattle.std.specs.Prelude.{◌≡◌, ◌≤◌, IfOk, IfSome, length, map};
ghost use Rattle.net_core.specs.declared.tree.Net.{Net};
ghost use Rattle.net_core.specs.declared.tree.Net.TheVariants as net;
ghost use Rattle.net_core.specs.View.{tree_of, right_of, wire_of};
ghost use Rattle.net_core.specs.Value.{Env, value, right_value};
ghost use Rattle.design_rules.specs.SolvedWires.Solving.{Solves};
ghost use Rattle.net_optimize.specs.Folding.{AreKnown, AreSameWires, IsValued};

use crate::depth::depth;
use crate::folding::folded_right;
use crate::marks::Marks;
use crate::reads::Reads;
use net_core::design::Wire;
use net_core::net_trees::copying::copied;
use net_core::net_trees::equal::is_same;
use net_core::net_trees::mark::right_mark;
use net_core::tree::{Expr, Net, Right};
use std::alloc::{AllocError, Global};

/// How deep the right side of a wire nests at most that stands where the wire was read. The grammar has no expressions
/// deeper than 64.
const DEEPEST: u32 = 24;

/// Wires, and what is known of each.
#[derive(Drop)]
pub(crate) struct Folded {
    pub(crate) wires: Vec<Wire>,
    pub(crate) known: Vec<Option<Expr<Net>>>,
}

// Whether an expression costs nothing.
fn is_simple(e: &Expr<Net>) -> bool {
    matches!(
        e,
        Expr::Const(_) | Expr::Read(_) | Expr::Bit(..) | Expr::PartSelect(..)
    )
}

// The first of these wires that has an expression for its right side, by their marks.
fn find(earlier: &[Wire], marks: &Marks, mark: u64, e: &Expr<Net>) -> Option<u32>
    requires { length earlier.now ≤ 4294967295 }
    ensures { IfSome result (λ j. (v : Env Net) → Solves v 0 (map wire_of earlier.now) → v.net (net.Wire j) ≡ value v (tree_of e.now)) }
{
    for j in marks.first(mark)..earlier.len() {
        if marks.has(j, mark)
            && let Right::Plain(other) = &earlier[j].right
            && is_same(other, e)
        {
            return Some(j as u32);
        }
    }
    None
}

// What stands in place of a wire with this right side: that itself, where it costs nothing or is moved, or an earlier wire that
// has it, where nothing is moved yet.
fn known_by(
    alloc: Global,
    earlier: &[Wire],
    marks: &Marks,
    right: &Right<Net>,
    moves: bool,
    is_read_once: bool,
) -> Result<Option<Expr<Net>>, AllocError>
    requires { length earlier.now ≤ 4294967295 }
    ensures { IfOk result (λ r. (v : Env Net) → Solves v 0 (map wire_of earlier.now) → IsValued v r (right_value v (right_of right.now))) }
{
    let Right::Plain(e) = right else {
        return Ok(None);
    };
    if is_simple(e) || moves && is_read_once && depth(e) <= DEEPEST {
        let same = copied(alloc, e)?;
        return Ok(Some(same));
    }
    if moves {
        return Ok(None);
    }
    match find(earlier, marks, right_mark(right), e) {
        Some(j) => Ok(Some(Expr::Read(Net::Wire(j)))),
        None => Ok(None),
    }
}

/// Wires of the same values. Either wires of equal right sides are read as the first of them, or the right side of a wire that is read
/// once is moved to where it is read.
pub(crate) fn folded_wires(
    alloc: Global,
    wires: &[Wire],
    reads: &Reads,
    moves: bool,
) -> Result<Folded, AllocError>
    requires { length wires.now ≤ 4294967295 }
    ensures count { IfOk result (λ f. length f.wires.items ≡ length wires.now) }
    ensures same { IfOk result (λ f. (v : Env Net) → Solves v 0 (map wire_of wires.now) → AreSameWires v (map wire_of wires.now) (map wire_of f.wires.items) × AreKnown v f.known.items) }
{
    let mut folded = Vec::new(alloc);
    let mut known = Vec::new(alloc);
    let mut marks = Marks::new(alloc);
    for wire in wires {
        let right = folded_right(alloc, &known, &wire.right)?;
        let is_read_once = reads.is_read_once(known.len());
        let fact = known_by(alloc, &folded, &marks, &right, moves, is_read_once)?;
        let mark = right_mark(&right);
        folded.push(Wire {
            width: wire.width,
            right,
        })?;
        known.push(fact)?;
        marks.push(mark)?;
    }
    Ok(Folded {
        wires: folded,
        known,
    })
}
