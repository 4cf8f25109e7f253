// The command `report`.

ghost use Rattle.std.specs.Prelude.{◌≡◌, ◌++◌, ◌∷◌, [], map, IfOk, OnOk, IsTrue, codes};
ghost use Rattle.xdp_object.specs.Choice.{chosen_of};
ghost use Rattle.command_line.specs.Request.{AskReport};
ghost use Rattle.capture_run.specs.States.{state_of};
ghost use Rattle.ehdl_top.specs.Report.{counted_line, map_line, report_lines, kind_word};
ghost use Rattle.ehdl_top.specs.Outcome.{IsReported};
ghost use Rattle.ehdl_top.specs.Steps.{EndsIn};

use crate::codes::named;
use crate::error::CommandError;
use crate::form::read_input;
use crate::object::{Accepted, AcceptedForm};
use beat_core::Bytes;
use capture_run::push_decimal;
use command_line::Choice;
use shelf_core::Shelf;
use std::alloc::{AllocError, Global};
use unfold_core::places;
use xdp_maps::decl::{MapDecl, MapKind};

// The word of a kind of map.
fn kind_word(kind: MapKind) -> &'static [u8]
    ensures { result.now ≡ kind_word kind }
{
    match kind {
        MapKind::Hash => b"hash",
        MapKind::Array => b"array",
    }
}

/// The line of a word and a number.
pub(crate) fn counted_line(alloc: Global, word: &[u8], count: u64) -> Result<Bytes, AllocError>
    ensures { IfOk result (λ line. line ≡ counted_line word.now count) }
{
    let mut line = Vec::from_slice(alloc, word)?;
    push_decimal(&mut line, count, b"\n")?;
    Bytes::of(alloc, &line)
}

// The line of a map.
fn map_line(alloc: Global, decl: &MapDecl) -> Result<Bytes, AllocError>
    ensures { IfOk result (λ line. line ≡ map_line decl.now) }
{
    let mut line = Vec::from_slice(alloc, b"map ")?;
    line.extend_from_slice(decl.name.as_slice())?;
    line.extend_from_slice(b" ")?;
    line.extend_from_slice(kind_word(decl.kind))?;
    line.extend_from_slice(b" ")?;
    push_decimal(&mut line, decl.key, b" ")?;
    push_decimal(&mut line, decl.value, b" ")?;
    push_decimal(&mut line, decl.cap, b"\n")?;
    Bytes::of(alloc, &line)
}

// Adds the lines of these maps.
fn push_maps(alloc: Global, lines: &mut Vec<Bytes>, decls: &[MapDecl]) -> Result<(), AllocError>
    ensures { OnOk result (lines.new.items ≡ lines.old.items ++ map map_line decls.now) }
{
    for decl in decls {
        lines.push(map_line(alloc, decl)?)?;
    }
    Ok(())
}

// The lines of an accepted program.
fn report_lines(alloc: Global, accepted: &Accepted) -> Result<Vec<Bytes>, AllocError>
    ensures { IfOk result (λ lines. lines.items ≡ report_lines accepted.now.program accepted.now.counts.nodes accepted.now.counts.stages) }
{
    let program = &accepted.program;
    let counts = &accepted.counts;
    let slots = places(alloc, program)?.len() as u64;
    let name = named(alloc, b"program ", program.name())?;
    let mut lines = Vec::new(alloc);
    lines.push(Bytes::of(alloc, &name)?)?;
    lines.push(counted_line(alloc, b"slots ", slots)?)?;
    lines.push(counted_line(alloc, b"nodes ", counts.nodes)?)?;
    lines.push(counted_line(alloc, b"stages ", u64::from(counts.stages.rows))?)?;
    lines.push(counted_line(alloc, b"records ", u64::from(counts.stages.records))?)?;
    push_maps(alloc, &mut lines, program.decls())?;
    Ok(lines)
}

/// What a pipeline for an object's program has to hold: the lines that say so.
pub(crate) fn report_object<S: Shelf>(
    alloc: Global,
    shelf: &mut S,
    object: &str,
    choice: Choice,
) -> Result<Vec<Bytes>, CommandError>
    ensures ends { EndsIn (AskReport object.now (chosen_of choice.entry)) (state_of S.Shelf shelf.old) (state_of S.Shelf shelf.new) result }
    ensures lines { IfOk result (λ lines. IsTrue (S.tells shelf.old) → IsReported object.now (chosen_of choice.entry) (S.held shelf.old) lines.items) }
{
    let accepted = read_input(alloc, shelf, object, &AcceptedForm { choice })?;
    Ok(report_lines(alloc, &accepted)?)
}
