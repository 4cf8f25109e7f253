//! Whether wires stand where their numbers say.

ghost use Rattle.std.specs.Prelude.{◌≡◌, ◌<◌, ◌+◌, true, false, IfOk, IfSome, map, length};
ghost use Rattle.std.proofs.Common.{get_or};
ghost use Rattle.net_core.specs.declared.tree.Net.{Net};
ghost use Rattle.net_core.specs.declared.tree.Net.TheVariants as net;
ghost use Rattle.net_core.specs.declared.design.Wire.{Wire};
ghost use Rattle.net_core.specs.View.{right_of, wire_of};
ghost use Rattle.net_core.specs.Value.{Env, right_value, stops};
ghost use Rattle.net_optimize.specs.SharedExpressions.Standing.{Stand, ArePlaced, NoneStops, AreBefore};

use crate::shared_expressions::rewriting::rewritten_right;
use crate::shared_expressions::table::Table;
use net_core::design::Wire;
use net_core::net_trees::equal::is_same;
use net_core::tree::{Net, Right};
use std::alloc::{AllocError, Global};

// Whether two right sides are the same.
fn is_same_right(a: &Right<Net>, b: &Right<Net>) -> bool
    ensures { result ≡ true → right_of a.now ≡ right_of b.now }
{
    match (a, b) {
        (Right::Plain(a), Right::Plain(b)) => is_same(a, b),
        (Right::Quotient(a, b), Right::Quotient(c, d)) => a == c && b == d,
        (Right::Remainder(a, b), Right::Remainder(c, d)) => a == c && b == d,
        _ => false,
    }
}

// Whether a wire cannot stop a clock.
fn is_plain(wire: &Wire) -> bool
    ensures { result ≡ true → (v : Env Net) → stops v (right_of wire.now.right) ≡ false }
{
    matches!(wire.right, Right::Plain(_))
}

// Whether the wire at a place is this one by the new numbers.
fn is_at(alloc: Global, table: &Table, place: usize, wire: &Wire) -> Result<bool, AllocError>
    requires { place < length table.now.wires.items }
    ensures value { IfOk result (λ is. is ≡ true → (v u : Env Net) → Stand table.now.numbers.items (map wire_of table.now.wires.items) v u → right_value u (right_of wire.now.right) ≡ v.net (net.Wire place)) }
    ensures stops { IfOk result (λ is. is ≡ true → (w : Wire) → w ≡ get_or table.now.wires.items place w → (v u : Env Net) → Stand table.now.numbers.items (map wire_of table.now.wires.items) v u → stops v (right_of w.right) ≡ stops u (right_of wire.now.right)) }
{
    let wanted = rewritten_right(alloc, table, place, &wire.right)?;
    Ok(is_same_right(&table.wires[place].right, &wanted))
}

// How many wires stand before the next place, if the wire at this one is the next of them or is plain.
fn after_place(
    alloc: Global,
    table: &Table,
    wires: &[Wire],
    next: usize,
    place: usize,
) -> Result<Option<usize>, AllocError>
    requires inside { place < length table.now.wires.items }
    requires before { AreBefore table.now.numbers.items (map wire_of table.now.wires.items) (map wire_of wires.now) place next }
    ensures { IfOk result (λ r. IfSome r (λ n. AreBefore table.now.numbers.items (map wire_of table.now.wires.items) (map wire_of wires.now) (place + 1) n)) }
{
    if next < table.numbers.len() && next < wires.len() && table.numbers[next] as usize == place {
        if !is_at(alloc, table, place, &wires[next])? {
            return Ok(None);
        }
        return Ok(Some(next + 1));
    }
    if is_plain(&table.wires[place]) {
        return Ok(Some(next));
    }
    Ok(None)
}

/// Whether each wire stands at its number, and all others have plain right sides.
pub(crate) fn are_placed(alloc: Global, table: &Table, wires: &[Wire]) -> Result<bool, AllocError>
    ensures placed { IfOk result (λ is. is ≡ true → (v u : Env Net) → Stand table.now.numbers.items (map wire_of table.now.wires.items) v u → ArePlaced v u table.now.numbers.items (map wire_of wires.now)) }
    ensures goes { IfOk result (λ is. is ≡ true → (v u : Env Net) → Stand table.now.numbers.items (map wire_of table.now.wires.items) v u → NoneStops u (map wire_of wires.now) → NoneStops v (map wire_of table.now.wires.items)) }
{
    let mut next: usize = 0;
    for place in 0..table.wires.len() {
        match after_place(alloc, table, wires, next, place)? {
            Some(more) => next = more,
            None => return Ok(false),
        }
    }
    Ok(next == wires.len() && next == table.numbers.len())
}
