// The command `demo`.

ghost use Rattle.std.specs.Prelude.{◌≡◌, ◌<◌, ◌^◌, length, map, IfOk, IfErr};
ghost use Rattle.xdp_maps.specs.State.{decl_at};
ghost use Rattle.xdp_maps.specs.declared.decl.MapKind.TheVariants.{Hash};
ghost use Rattle.port_drive.specs.AnswerCounts.Counts.{byte_count, entry_count};
ghost use Rattle.ehdl_build.specs.Compiled.{size_of};
ghost use Rattle.ehdl_top.specs.Demo.{demo_lines};
ghost use Rattle.ehdl_top.specs.Outcome.{IsDemo};
ghost use Rattle.ehdl_top.specs.declared.error.CommandError.{CommandError};

use crate::drive::clock_limit;
use crate::error::CommandError;
use crate::form::Form;
use crate::object::ProgramForm;
use crate::packets::read_capture;
use crate::pipeline::{Ran, run_pipeline};
use crate::report::counted_line;
use beat_core::Bytes;
use command_line::Choice;
use ehdl_build::Built;
use flow_demo::demo_graph::laws::demo_is_accepted;
use flow_demo::make;
use port_drive::answer_counts::{byte_count, entry_count, other_count, verdict_count};
use std::alloc::{AllocError, Global};
use xdp_maps::state::Maps;

/// The interface that the packets come in by.
const INTERFACE: u32 = 1;

/// The program's own hash has fewer entries.
const HASH_CAP: u32 = 256;

// The lines of a run of a pipeline over so many packets, which could take so many clocks.
fn demo_lines(
    alloc: Global,
    packets: u32,
    ran: &Ran,
    built: &Built,
    limit: u64,
) -> Result<Vec<Bytes>, AllocError>
    requires few { byte_count ran.now.answers < 2 ^ 64 }
    requires map { 0 < length ran.now.maps.decls }
    requires hash { (decl_at ran.now.maps 0).kind ≡ Hash }
    ensures { IfOk result (λ lines. lines.items ≡ demo_lines packets ran.now.answers (entry_count ran.now.maps 0) (size_of built.now) limit) }
{
    let answers = &ran.answers;
    let entries = entry_count(&ran.maps, 0);
    let mut lines = Vec::new(alloc);
    lines.push(counted_line(alloc, b"packets ", u64::from(packets))?)?;
    lines.push(counted_line(alloc, b"aborted ", verdict_count(answers, 0))?)?;
    lines.push(counted_line(alloc, b"drop ", verdict_count(answers, 1))?)?;
    lines.push(counted_line(alloc, b"pass ", verdict_count(answers, 2))?)?;
    lines.push(counted_line(alloc, b"tx ", verdict_count(answers, 3))?)?;
    lines.push(counted_line(alloc, b"redirect ", verdict_count(answers, 4))?)?;
    lines.push(counted_line(alloc, b"other ", other_count(answers))?)?;
    lines.push(counted_line(alloc, b"bytes ", byte_count(answers))?)?;
    lines.push(counted_line(alloc, b"entries ", u64::from(entries))?)?;
    lines.push(counted_line(alloc, b"stages ", u64::from(built.rows))?)?;
    lines.push(counted_line(alloc, b"records ", u64::from(built.records))?)?;
    lines.push(counted_line(alloc, b"limit ", limit)?)?;
    Ok(lines)
}

/// Compiles the program of `flow_demo`, simulates the text over so many packets that are drawn from a seed, and gives the lines that say
/// what is counted. It touches no file.
pub(crate) fn run_demo(alloc: Global, seed: u32, packets: u32) -> Result<Vec<Bytes>, CommandError>
    ensures lines { IfOk result (λ lines. IsDemo seed packets lines.items) }
    ensures memory { IfErr result (λ e. e ≡ CommandError.NoMemory) }
{
    // The program is accepted, so that nothing else is given up for.
    demo_is_accepted();
    let demo = make(alloc, seed, packets)?;
    let choice = Choice {
        program: None,
        hash_cap: HASH_CAP,
    };
    let built = ProgramForm { choice }.read(alloc, &demo.object)?;
    let capture = read_capture(alloc, &demo.capture)?;
    let first = Maps::new(alloc, &built.decls)?;
    let ran = run_pipeline(alloc, &built, &first, &capture.packets, INTERFACE)?;
    let limit = clock_limit(&capture.packets, built.rows, built.records);
    Ok(demo_lines(alloc, packets, &ran, &built, limit)?)
}
