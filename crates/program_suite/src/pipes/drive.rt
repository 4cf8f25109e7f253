//! Drives of a pipe.

ghost use Rattle.std.specs.Prelude.{◌≡◌, ◌<◌, ◌^◌, length};
ghost use Rattle.row_rules.specs.cell_core.Formed.{AllFit, AreFormed, AreSited};
ghost use Rattle.row_rules.specs.cell_core.View.{program_of};
ghost use Rattle.pipe_core.specs.Planned.{IsUsable};
ghost use Rattle.predicate_core.specs.Buildable.{IsBuildable};
ghost use Rattle.row_plan.specs.Plan.{IsPlan};

use crate::cases::tables::push_maps;
use crate::packets::push_left;
use crate::pipes::ways::{Offer, Way, offers_of};
use anyhow::{Context, Result, ensure};
use pipe_core::pipe::Pipe;
use pipe_core::ports::{In, Out};
use row_plan::RowPlan;
use row_plan::cell_core::program::{CellProgram, PacketIn};
use row_plan::cell_core::xdp_state::xdp_maps::state::Maps;
use std::alloc::Global;

/// The most clocks of a drive.
const CLOCKS: u64 = 1_000_000;

/// What a pipe gave: the lines of its answers and of the maps in the end, and what has come of the next answer's frame; in how many
/// clocks, and how many packets it sent back.
#[derive(Drop)]
pub(crate) struct Given {
    pub(crate) left: String,
    answers: usize,
    frame: Vec<u8>,
    pub(crate) clocks: u64,
    pub(crate) back: u64,
}

impl Given {
    // Nothing yet.
    fn new(alloc: Global) -> Given {
        Given {
            left: String::new(alloc),
            answers: 0,
            frame: Vec::new(alloc),
            clocks: 0,
            back: 0,
        }
    }

    // What a clock gave.
    fn take(&mut self, packets: &[PacketIn], input: &In, out: &Out) -> Result<()> {
        self.clocks = self.clocks.saturating_add(1);
        self.back = self.back.saturating_add(out.reloaded as u64);
        let Some(beat) = out.beat else {
            return Ok(());
        };
        if !input.take {
            return Ok(());
        }
        let count = (beat.bytes as usize).min(8);
        self.frame
            .extend_from_slice(&beat.word.to_le_bytes()[..count])?;
        if beat.last {
            let packet = packets.get(self.answers).context("an answer too many")?;
            let (before, after) = (packet.frame.bytes(), &self.frame);
            push_left(
                self.answers,
                before,
                out.verdict,
                out.target,
                after,
                &mut self.left,
            )?;
            self.answers = self.answers.saturating_add(1);
            self.frame.clear();
        }
        Ok(())
    }
}

// A pipe can be built of cells that can be built.
fn is_usable(cells: &CellProgram, plan: &RowPlan, maps: &Maps)
    requires buildable { IsBuildable (program_of cells.now) }
    requires formed { AreFormed (program_of cells.now).cells }
    requires sited { AreSited maps.now.decls (program_of cells.now) }
    requires plan { IsPlan (program_of cells.now) plan.now }
    requires few { length cells.now.sites.items < 2 ^ 32 }
    ensures usable { IsUsable (program_of cells.now) }
    ensures fits { AllFit maps.now.decls (program_of cells.now).sites }
    ensures rows { length plan.now.rows ≡ length cells.now.cells.items }
{}

/// Drives a pipe with packets until it has given all answers.
pub(crate) fn drive(
    alloc: Global,
    cells: &CellProgram,
    plan: &RowPlan,
    maps: &Maps,
    packets: &[PacketIn],
    way: Way,
) -> Result<Given>
    requires buildable { IsBuildable (program_of cells.now) }
    requires formed { AreFormed (program_of cells.now).cells }
    requires sited { AreSited maps.now.decls (program_of cells.now) }
    requires plan { IsPlan (program_of cells.now) plan.now }
{
    ensure!(maps.decls().len() < 1 << 32, "too many maps");
    ensure!(cells.cells.len() < 1 << 32, "too many cells");
    ensure!(cells.sites.len() < 1 << 32, "too many sites");
    ensure!(plan.rows() <= 256, "too many rows");
    is_usable(cells, plan, maps);
    let mut pipe = Pipe::new(alloc, cells, plan, maps, plan.rows() + 4)?;
    ensure!(pipe.is_idle(), "a frame in a new pipe");
    pipe.load(alloc, maps)?;
    let offers = offers_of(alloc, packets)?;
    let mut given = Given::new(alloc);
    run(&mut pipe, &offers, packets, way, &mut given)?;
    ensure!(pipe.tables().decls().len() < 1 << 32, "too many maps");
    push_maps(alloc, &pipe.maps(alloc)?, &mut given.left)?;
    Ok(given)
}

// Clocks a pipe until it has given all answers.
fn run(
    pipe: &mut Pipe,
    offers: &[Offer],
    packets: &[PacketIn],
    way: Way,
    given: &mut Given,
) -> Result<()> {
    let mut left = offers;
    for clock in 0..CLOCKS {
        if given.answers == packets.len() {
            break;
        }
        let input = way.input(clock, left);
        ensure!(pipe.has_room(input.beat), "a frame too long");
        let out = pipe.clock(input);
        given.take(packets, &input, &out)?;
        if input.beat.is_some() && out.ready {
            left = left.get(1..).context("a beat that was offered")?;
        }
    }
    Ok(())
}
