// One node.

ghost use Rattle.std.specs.Prelude.{◌≡◌, ◌<◌, ◌≤◌, ◌∷◌, [], ℕ, max, if◌then◌else◌, length, None, get_or};
ghost use Rattle.xdp_state.specs.bpf_isa.Spelling.{IsInsn};
ghost use Rattle.xdp_state.specs.Reasons.{most_stages};
ghost use Rattle.row_rules.specs.PlaceRows.Locations.{location_count};
ghost use Rattle.row_rules.specs.PlaceRows.Spans.{one};
ghost use Rattle.row_rules.specs.PlaceRows.Reading.{right_of};
ghost use Rattle.row_rules.specs.PlaceRows.Origins.{span_row, spans_row, every_row};
ghost use Rattle.row_rules.specs.NodeRows.Passing.{leaving_row, result_row, is_some_place, written, noted, origins_behind, behind};

use crate::place_rows::location::{LOCATIONS, Location};
use crate::place_rows::origin::{Origin, Origins, has_data};
use crate::place_rows::reading::{reads, takes_stage};
use crate::place_rows::recording::{Record, record_of};
use crate::place_rows::span::{Span, pending, register};
use crate::place_rows::writing::writes;
use kind_core::{Kinds, decide};
use xdp_state::bpf_isa::{Insn, Op, Src};
use xdp_state::xdp_maps::decl::MapDecl;

/// What stands after a node: the row of its edges, the origins, and the greatest row that the node makes.
#[derive(Copy, Clone)]
pub struct AfterNode {
    pub edge: u32,
    pub origins: Origins,
    pub row: u32,
}

// Origins are those of all places.
fn are_all(origins: &Origins)
    ensures { length origins.now.places ≡ location_count }
{
    let _places: &[Option<Origin>] = &origins.places;
}

// The greatest row of these places.
fn greatest(origins: &Origins, spans: &[Span]) -> u32
    ensures { result ≡ spans_row origins.now.places spans.now }
{
    let mut most = 0;
    for span in spans {
        most = most.max(origins.span_row(*span));
    }
    most
}

// The greatest row of what a jump compares.
fn compared_row(origins: &Origins, insn: &Insn, src: Src) -> u32
    requires { every_row origins.now.places ≤ most_stages }
    ensures row { result ≡ max (span_row origins.now.places (one insn.now.dst)) (span_row origins.now.places (right_of insn.now src)) }
    ensures low { result ≤ most_stages }
{
    are_all(origins);
    let a = origins.span_row(register(insn.dst));
    let b = match src {
        Src::K => 0,
        Src::X => origins.span_row(register(insn.src)),
    };
    a.max(b)
}

// The row of the edges: that of the guard, and of a jump that is not decided also one after what it compares.
fn leaving_row(origins: &Origins, kinds: &Kinds, insn: &Insn, guard: u32) -> u32
    requires insn { IsInsn insn.now }
    requires low { every_row origins.now.places ≤ most_stages }
    ensures { result ≡ leaving_row origins.now.places kinds.now insn.now guard }
{
    match insn.op {
        Op::Jump(_, _, src) => match decide(insn, kinds) {
            Some(_) => guard,
            None => guard.max(1 + compared_row(origins, insn, src)),
        },
        _ => guard,
    }
}

// The row of a result.
fn result_row(decls: &[MapDecl], kinds: &Kinds, after: &Kinds, insn: &Insn, before: &Origins) -> u32
    requires insn { IsInsn insn.now }
    requires low { every_row before.now.places ≤ most_stages }
    ensures { result ≡ result_row decls.now kinds.now after.now insn.now before.now.places }
{
    are_all(before);
    let read = greatest(before, &reads(decls, kinds, insn));
    if takes_stage(kinds, after, insn) {
        read + 1
    } else {
        read
    }
}

// The least row of what is pending after a write: that of its guard, and of its answer if it has one.
fn least_row(places: &[Span; 2], guard: u32, row: u32) -> u32
    ensures { result ≡ (if is_some_place places.now then max guard row else guard) }
{
    if places[0].from < places[0].end {
        guard.max(row)
    } else {
        guard
    }
}

// A result is in these places, where there is data in them.
fn write_span(origins: &mut Origins, after: &Kinds, span: Span, origin: Origin)
    ensures { (place : ℕ) → place < location_count → get_or origins.new.places place None ≡ written after.now (span ∷ []) origin origins.old.places place }
{
    for place in span.from..span.end {
        if place < LOCATIONS {
            origins.places[place] = if has_data(after, place) {
                Some(origin)
            } else {
                None
            };
        }
    }
}

// The same of several spans.
fn write_spans(origins: &mut Origins, after: &Kinds, spans: &[Span], origin: Origin)
    ensures { (place : ℕ) → place < location_count → get_or origins.new.places place None ≡ written after.now spans.now origin origins.old.places place }
{
    for span in spans {
        write_span(origins, after, *span, origin);
    }
}

// What is pending of a map after a write of it.
fn note(origins: &mut Origins, before: &Origins, write: Option<Record>, maker: u32, least: u32)
    ensures { (place : ℕ) → place < location_count → get_or origins.new.places place None ≡ noted before.now.places write maker least place (get_or origins.old.places place None) }
{
    if let Some(write) = write {
        let own = before.span_row(pending(write.map));
        let row = least.max(own).max(greatest(before, &write.takes));
        let place = Location::PendingWrites(write.map).number();
        if place < LOCATIONS {
            origins.places[place] = Some(Origin { maker, row });
        }
    }
}

// The origins after a node with this instruction.
fn origins_behind(
    decls: &[MapDecl],
    kinds: &Kinds,
    after: &Kinds,
    insn: &Insn,
    maker: u32,
    guard: u32,
    before: &Origins,
) -> Origins
    requires insn { IsInsn insn.now }
    requires low { every_row before.now.places ≤ most_stages }
    ensures { result.places ≡ origins_behind decls.now kinds.now after.now insn.now maker guard before.now.places }
{
    let places = writes(kinds, insn);
    let row = result_row(decls, kinds, after, insn, before);
    let origin = Origin { maker, row };
    let mut origins = *before;
    write_spans(&mut origins, after, &places, origin);
    let least = least_row(&places, guard, row);
    note(
        &mut origins,
        before,
        record_of(decls, kinds, insn),
        maker,
        least,
    );
    are_all(&origins);
    origins
}

/// What stands after a node with this instruction, by its guard's row and the origins at it.
pub(crate) fn pass(
    decls: &[MapDecl],
    kinds: &Kinds,
    after: &Kinds,
    insn: &Insn,
    maker: u32,
    guard: u32,
    before: &Origins,
) -> AfterNode
    requires insn { IsInsn insn.now }
    requires low { every_row before.now.places ≤ most_stages }
    ensures { result ≡ behind decls.now kinds.now after.now insn.now maker guard before.now.places }
{
    let origins = origins_behind(decls, kinds, after, insn, maker, guard, before);
    let edge = leaving_row(before, kinds, insn, guard);
    let row = edge.max(before.every_row()).max(origins.every_row());
    AfterNode { edge, origins, row }
}
