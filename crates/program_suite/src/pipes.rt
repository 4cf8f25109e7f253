//! Cases of programs in a pipe, beside their runs.

ghost use Rattle.std.specs.Prelude.{◌≡◌, IfOk};
ghost use Rattle.row_rules.specs.cell_core.Formed.{AreFormed, AreSited};
ghost use Rattle.row_rules.specs.cell_core.View.{program_of};
ghost use Rattle.predicate_core.specs.Buildable.{IsBuildable};
ghost use Rattle.row_plan.specs.Plan.{IsPlan};

pub(crate) mod drive;
pub(crate) mod ways;

use crate::cases::refusal::push_refusal;
use crate::packets::{push_runs, push_stages};
use crate::pipes::drive::{Given, drive};
use crate::pipes::ways::{WAYS, Way};
use anyhow::{Result, ensure};
use kind_core::{BuildError, Offsets};
use pipe_core::bound::clock_bound;
use predicate_core::program::to_cells;
use row_plan::cell_core::program::{CellProgram, PacketIn};
use row_plan::cell_core::xdp_state::xdp_maps::state::Maps;
use row_plan::{RowPlan, plan};
use std::alloc::{AllocError, Global};
use std::fmt::Write;
use unfold_core::unfold;
use xdp_object::Program;

/// Adds what packets leave one after another by the runs of a program, and where a pipe of its cells gives something else. Where it is
/// said how many clocks the pipe may take, the answer says also whether packets are sent back.
pub(crate) fn answer(
    alloc: Global,
    program: &Program,
    packets: &[PacketIn],
    most: Option<u64>,
    out: &mut String,
) -> Result<()> {
    let graph = match unfold(alloc, program, Offsets::Fixed) {
        Ok(graph) => graph,
        Err(e) => return push_refusal(out, e),
    };
    let cells = to_cells(alloc, program, &graph)?;
    push_stages(alloc, program, &graph, out)?;
    let plan = match planned(alloc, &cells)? {
        Ok(plan) => plan,
        Err(e) => return push_refusal(out, e),
    };
    beside(alloc, program, &cells, &plan, packets, most, out)
}

// Adds what packets leave by the runs of a program, and where a pipe of its cells gives something else.
fn beside(
    alloc: Global,
    program: &Program,
    cells: &CellProgram,
    plan: &RowPlan,
    packets: &[PacketIn],
    most: Option<u64>,
    out: &mut String,
) -> Result<()>
    requires buildable { IsBuildable (program_of cells.now) }
    requires formed { AreFormed (program_of cells.now).cells }
    requires sited { AreSited program.now.decls (program_of cells.now) }
    requires plan { IsPlan (program_of cells.now) plan.now }
{
    let clocks = most.unwrap_or(bound(cells, plan, packets));
    let mut left = String::new(alloc);
    push_runs(
        alloc,
        program,
        &mut empty(alloc, program)?,
        packets,
        &mut left,
    )?;
    out.push_str(&left)?;
    let first = empty(alloc, program)?;
    for way in WAYS {
        let given = drive(alloc, cells, plan, &first, packets, way)?;
        push_given(&given, &left, way, clocks, most.is_some(), out)?;
    }
    Ok(())
}

// The maps of a program, which hold nothing.
fn empty(alloc: Global, program: &Program) -> Result<Maps>
    ensures { IfOk result (λ maps. maps.decls ≡ program.now.decls) }
{
    let decls = program.decls();
    let all = decls.iter().all(|d| d.is_within_limits());
    ensure!(all, "maps within the limits");
    Ok(Maps::new(alloc, decls)?)
}

// The plan of cells, or the refusal of the program.
fn planned(alloc: Global, cells: &CellProgram) -> Result<Result<RowPlan, BuildError>>
    requires { AreFormed (program_of cells.now).cells }
    ensures { IfOk result (λ r. IfOk r (IsPlan (program_of cells.now))) }
{
    ensure!(cells.cells.len() < 1 << 32, "too many cells");
    Ok(plan(alloc, cells))
}

// The bound of the pipe for these packets.
fn bound(cells: &CellProgram, plan: &RowPlan, packets: &[PacketIn]) -> u64 {
    let count = packets.len() as u64;
    let writes = cells.sites.iter().filter(|s| s.act.records()).count() as u64;
    let longest = packets.iter().map(|p| p.frame.len()).max().unwrap_or(0);
    let beats = longest.div_ceil(8) as u64;
    clock_bound(count, u64::from(plan.rows()), beats, writes)
}

// Adds whether a pipe gave what the runs left; in the first way also whether in so many clocks, and where these were said whether
// packets were sent back.
fn push_given(
    given: &Given,
    left: &str,
    way: Way,
    most: u64,
    said: bool,
    out: &mut String,
) -> Result<(), AllocError> {
    write!(out, "\n| {}:", way.name)?;
    if way.offered == 1 && way.taken == 1 {
        match given.clocks <= most {
            true => out.push_str(" in time,")?,
            false => write!(out, " {} clocks,", given.clocks)?,
        }
        out.push_str(match (said, given.back) {
            (false, _) => "",
            (true, 0) => " none sent back,",
            (true, _) => " some sent back,",
        })?;
    }
    match given.left.as_str() == left {
        true => out.push_str(" alike"),
        false => write!(out, " otherwise{}", given.left),
    }
}
