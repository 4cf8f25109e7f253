//! Cases of packets that come one after another.

ghost use Rattle.unfold_core.specs.Unfolding.{IsUnfolded};

use crate::cases::refusal::push_refusal;
use crate::cases::tables::push_maps;
use anyhow::{Context, Result};
use kind_core::Offsets;
use row_plan::cell_core::program::PacketIn;
use row_plan::cell_core::xdp_state::beat_core::{Frame, Meta};
use row_plan::cell_core::xdp_state::xdp_maps::state::Maps;
use row_rules::node_rows::count_stages;
use std::alloc::{AllocError, Global};
use std::fmt::Write;
use unfold_core::{Unfolded, unfold};
use xdp_object::Program;
use xdp_seq::{SeqPlan, run_packet};

/// Adds the nodes, stages and records of a program, or its refusal, and what packets leave by its runs.
pub(crate) fn answer(
    alloc: Global,
    program: &Program,
    maps: &mut Maps,
    packets: &[PacketIn],
    out: &mut String,
) -> Result<()> {
    match unfold(alloc, program, Offsets::Fixed) {
        Ok(graph) => push_stages(alloc, program, &graph, out)?,
        Err(e) => return push_refusal(out, e),
    }
    push_runs(alloc, program, maps, packets, out)
}

/// Adds the nodes, stages and records of a program by its graph, or its refusal.
pub(crate) fn push_stages(
    alloc: Global,
    program: &Program,
    graph: &Unfolded,
    out: &mut String,
) -> Result<()>
    requires unfolded { IsUnfolded program.now graph.now }
{
    let nodes = graph.nodes.len();
    match count_stages(alloc, program, graph) {
        Ok(s) => {
            let (stages, records) = (s.rows, s.records);
            Ok(write!(out, "{nodes} nodes, {stages} stages, {records} records")?)
        }
        Err(e) => push_refusal(out, e),
    }
}

/// Adds what packets leave by the runs of a program, and the lines of the final maps.
pub(crate) fn push_runs(
    alloc: Global,
    program: &Program,
    maps: &mut Maps,
    packets: &[PacketIn],
    out: &mut String,
) -> Result<()> {
    let mut plan = SeqPlan::open(alloc, program)?;
    for (i, packet) in packets.iter().enumerate() {
        push_run(alloc, &mut plan, maps, i, packet, out)?;
    }
    push_maps(alloc, maps, out)
}

// Adds what a packet of this number leaves by the run of a program.
fn push_run(
    alloc: Global,
    plan: &mut SeqPlan,
    maps: &mut Maps,
    i: usize,
    packet: &PacketIn,
    out: &mut String,
) -> Result<()> {
    let before = packet.frame.bytes();
    let mut frame = Frame::of(alloc, before)?;
    let meta = Meta {
        ifindex: packet.ifindex,
        time: packet.time,
    };
    let ended = run_packet(plan, maps, &mut frame, meta).context("the run of a packet")?;
    let (verdict, target) = (ended.verdict, ended.target);
    Ok(push_left(i, before, verdict, target, frame.bytes(), out)?)
}

/// Adds the line of what a packet of this number leaves: verdict, target, length, and the bytes that are others than before, each
/// run of them after its place.
pub(crate) fn push_left(
    i: usize,
    before: &[u8],
    verdict: u32,
    target: u32,
    after: &[u8],
    out: &mut String,
) -> Result<(), AllocError> {
    write!(out, "\n| {i} {verdict} {target} {}", after.len())?;
    let mut runs = false;
    for (place, (old, new)) in before.iter().zip(after).enumerate() {
        let differs = old != new;
        if differs && !runs {
            write!(out, " {place}:")?;
        }
        if differs {
            write!(out, "{new:02x}")?;
        }
        runs = differs;
    }
    Ok(())
}
