//! Cases of programs that are found for refused ones.

ghost use Rattle.unfold_core.specs.Unfolding.{IsUnfolded};

use crate::cases::refusal::push_refusal;
use crate::packets::{push_runs, push_stages};
use anyhow::Result;
use cover_core::covers;
use cover_search::{Found, find};
use kind_core::Offsets;
use row_plan::cell_core::program::PacketIn;
use row_plan::cell_core::xdp_state::xdp_maps::state::Maps;
use std::alloc::Global;
use std::fmt::Write;
use unfold_core::{Unfolded, unfold};
use xdp_object::Program;

/// Adds the units, nodes, stages and records of a program that is found for another one and covers it, and what packets leave by the runs
/// of it, from empty maps; or that there is none, or what is wrong with it.
pub(crate) fn answer(
    alloc: Global,
    program: &Program,
    packets: &[PacketIn],
    out: &mut String,
) -> Result<()> {
    match find(alloc, program)? {
        Some(found) => of_found(alloc, program, &found, packets, out),
        None => Ok(out.push_str("none")?),
    }
}

// Adds what is counted of a program that was found, if it covers the other one, and its runs.
fn of_found(
    alloc: Global,
    program: &Program,
    found: &Found,
    packets: &[PacketIn],
    out: &mut String,
) -> Result<()> {
    let graph = match unfold(alloc, &found.program, Offsets::Fixed) {
        Ok(graph) => graph,
        Err(e) => return push_refusal(out, e),
    };
    if !covers(alloc, program, &found.program, &graph, &found.origin)? {
        return Ok(out.push_str("no cover")?);
    }
    let free = free_places(alloc, program, found, &graph)?;
    write!(out, "{} units, {free} free, ", found.origin.len())?;
    push_stages(alloc, &found.program, &graph, out)?;
    push_both(alloc, program, &found.program, packets, out)
}

// How many places may have another origin, the next one: those where no node stands.
fn free_places(alloc: Global, program: &Program, found: &Found, graph: &Unfolded) -> Result<u32>
    requires { IsUnfolded found.now.program graph.now }
{
    let mut free = 0u32;
    for place in 0..found.origin.len() {
        let mut origin = Vec::from_slice(alloc, &found.origin)?;
        if place < origin.len() {
            origin[place] = origin[place].wrapping_add(1);
        }
        if covers(alloc, program, &found.program, graph, &origin)? {
            free = free.saturating_add(1);
        }
    }
    Ok(free)
}

// Adds what packets leave by the runs of two programs, from empty maps, or that this is not the same.
fn push_both(
    alloc: Global,
    a: &Program,
    b: &Program,
    packets: &[PacketIn],
    out: &mut String,
) -> Result<()> {
    let mut of_a = String::new(alloc);
    push_runs(
        alloc,
        a,
        &mut Maps::new(alloc, a.decls())?,
        packets,
        &mut of_a,
    )?;
    let mut of_b = String::new(alloc);
    push_runs(
        alloc,
        b,
        &mut Maps::new(alloc, b.decls())?,
        packets,
        &mut of_b,
    )?;
    if of_a.as_str() == of_b.as_str() {
        out.push_str(&of_a)?;
    } else {
        out.push_str(", other runs")?;
    }
    Ok(())
}
