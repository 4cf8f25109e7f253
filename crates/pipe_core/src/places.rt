//! The places of a pipe, and the packets in them.

ghost use Rattle.std.specs.Prelude.{ℕ, ◌≡◌, ◌<◌, ◌≤◌, ◌^◌, suc, length, map as map_list, replicate, IfOk, None, if◌then◌else◌, ◌||◌, nat_lt};
ghost use Rattle.std.proofs.Common.{get_or};
ghost use Rattle.std.specs.Option.{ForSome, option_map};
ghost use Rattle.hazard_core.specs.cell_core.Formed.{AllFit};
ghost use Rattle.hazard_core.specs.cell_core.View.{program_of};
ghost use Rattle.pipe_core.specs.Machine.{injected, inside, place_at, no_frame, sends, some_send, flushed, enters, moved, newcomer, marked_by, marked_below};
ghost use Rattle.pipe_core.specs.BuildView.{build_in};
ghost use Rattle.pipe_core.specs.Planned.{planned_view, build_of, arrival_of, IsUsable, IsPacketOf};
ghost use Rattle.pipe_core.specs.StageMemory.{in_place, HaveStageMemory};

use crate::arrived::{Arrived, source_at};
use crate::packet::Packet;
use crate::planned::Planned;
use hazard_core::cell_core::program::PacketIn;
use hazard_core::cell_core::xdp_state::beat_core::Frame;
use hazard_core::change::Change;
use hazard_core::rows::Source;
use hazard_core::tables::Tables;
use std::alloc::{AllocError, Global};
use std::marker::Model;
use std::mem;

/// A place with the memory of a packet, and whether there is one in it.
#[derive(Drop)]
pub(crate) struct Stage {
    packet: Packet,
    used: bool,
}

/// The places of a program with its plan, from place 0 on, where the youngest packets are. One packet's memory more than there are places is
/// there for the next to come, so that none is taken while packets move. Contracts see a `PlacesView`.
#[derive(Drop)]
pub struct Places<'a> {
    planned: Planned<'a>,
    places: Vec<Stage>,
    next: Stage,
    /// Any packet, for the operators that look at none.
    other: PacketIn,
}

impl<'a> Model for Places<'a> {
    ghost use Rattle.std.specs.Prelude.{◌≡◌, suc, length, map as map_list};
    ghost use Rattle.hazard_core.specs.cell_core.View.{program_of};
    ghost use Rattle.pipe_core.specs.PlacesView.{PlacesView};
    ghost use Rattle.pipe_core.specs.Planned.{planned_view, IsUsable, IsPacketOf};
    ghost use Rattle.pipe_core.specs.StageMemory.{in_place, HaveStageMemory};

    ghost Value = { PlacesView };

    ghost view = { λ p. record { build = planned_view p.planned; places = map_list in_place p.places.items } };

    ghost invariant = { λ p. IsUsable (program_of p.planned.program.now) × (length p.places.items ≡ suc p.planned.last) × HaveStageMemory (program_of p.planned.program.now) p.places.items × IsPacketOf (program_of p.planned.program.now) p.next.packet };
}

impl<'a> Places<'a> {
    /// Without a packet.
    pub fn new(alloc: Global, planned: Planned<'a>) -> Result<Places<'a>, AllocError>
        requires { IsUsable (program_of planned.program.now) }
        ensures { IfOk result (λ p. p ≡ record { build = planned_view planned.entry; places = replicate (suc planned.entry.last) None }) }
    {
        let other = PacketIn {
            frame: Frame::of(alloc, &[0])?,
            ifindex: 0,
            time: 0,
        };
        let places = empty_places(alloc, &planned)?;
        let next = empty_place(alloc, &planned)?;
        Ok(Places {
            planned,
            places,
            next,
            other,
        })
    }

    /// The program with its plan.
    pub fn planned(&self) -> &Planned<'a>
        ensures build { planned_view result.now ≡ self.now.build }
        ensures usable { IsUsable self.now.build.program }
        ensures count { length self.now.places ≡ suc self.now.build.last }
    {
        &self.planned
    }

    /// Empties each place that sends back, and all before it. The answer is whether one did.
    pub(crate) fn flush(&mut self) -> bool
        ensures places { self.new ≡ record self.old { places = flushed (build_in self.old.build) 0 self.old.places } }
        ensures some { result ≡ some_send (build_in self.old.build) 0 self.old.places }
    {
        flush_places(&self.planned, &mut self.places)
    }

    /// How many packets there are.
    pub(crate) fn count(&self) -> usize
        ensures count { result ≡ inside self.now.places }
        ensures few { result ≤ suc self.now.build.last }
    {
        count_used(&self.places)
    }

    /// The packet in place k.
    pub(crate) fn at(&self, k: usize) -> Option<&Packet>
        ensures packet { option_map (λ x. x.now) result ≡ place_at self.now.places k }
        ensures of { ForSome result (λ x. IsPacketOf self.now.build.program x.now) }
    {
        if k < self.places.len() && self.places[k].used {
            Some(&self.places[k].packet)
        } else {
            None
        }
    }

    /// A change marks the packets below a place.
    pub(crate) fn mark_below(&mut self, to: usize, tables: &Tables, change: &Change)
        requires { AllFit tables.now.decls self.old.build.program.sites }
        ensures { self.new ≡ record self.old { places = marked_below to (build_in self.old.build) tables.now change.now 0 self.old.places } }
    {
        mark_places(&self.planned, to, tables, change, &mut self.places);
    }

    /// Each packet moves one place on, and the next frame that waits is injected, where nothing was sent back. The packet of the last place
    /// leaves.
    pub(crate) fn advance(&mut self, tables: &Tables, frames: &[Arrived], back: bool)
        requires { AllFit tables.now.decls self.old.build.program.sites }
        ensures { self.new ≡ record self.old { places = moved (build_in self.old.build) tables.now frames.now 0 (newcomer (build_in self.old.build) back frames.now self.old.places) self.old.places } }
    {
        let count = count_used(&self.places);
        self.next.used = !back && count < frames.len();
        self.next.packet.clear(self.planned.program);
        move_places(
            &self.planned,
            tables,
            frames,
            &self.other,
            &mut self.next,
            &mut self.places,
        );
    }
}

/// A place without a packet.
fn empty_place(alloc: Global, planned: &Planned) -> Result<Stage, AllocError>
    ensures empty { IfOk result (λ p. in_place p ≡ None) }
    ensures of { IfOk result (λ p. IsPacketOf (program_of planned.now.program.now) p.packet) }
{
    Ok(Stage {
        packet: Packet::new(alloc, planned.program)?,
        used: false,
    })
}

/// As many as the plan has.
fn empty_places(alloc: Global, planned: &Planned) -> Result<Vec<Stage>, AllocError>
    ensures places { IfOk result (λ ps. map_list in_place ps.items ≡ replicate (suc planned.now.last) None) }
    ensures of { IfOk result (λ ps. HaveStageMemory (program_of planned.now.program.now) ps.items) }
    ensures count { IfOk result (λ ps. length ps.items ≡ suc planned.now.last) }
{
    let mut places = Vec::new(alloc);
    places.push(empty_place(alloc, planned)?)?;
    for k in 0..planned.last {
        places.push(empty_place(alloc, planned)?)?;
    }
    Ok(places)
}

/// How many places have a packet.
#[tactic(auto, using(crate::proofs::Moving::count_step, crate::proofs::Moving::count_past))]
fn count_used(places: &[Stage]) -> usize
    ensures count { result ≡ inside (map_list in_place places.now) }
    ensures few { result ≤ length places.now }
{
    let mut count = 0;
    for place in places {
        if place.used {
            count += 1;
        }
    }
    count
}

/// Whether place k sends back.
fn sends(planned: &Planned, k: u32, place: &Stage) -> bool
    requires { IsPacketOf (program_of planned.now.program.now) place.now.packet }
    ensures { result ≡ sends (build_of planned.now) k (in_place place.now) }
{
    place.used && k <= planned.commit && place.packet.must_reload(planned, k)
}

/// Empties place k if it sends back, or one after it did. The answer is whether it is so.
fn flush_place(planned: &Planned, k: u32, back: bool, place: &mut Stage) -> bool
    requires { IsPacketOf (program_of planned.now.program.now) place.old.packet }
    ensures back { result ≡ (back || sends (build_of planned.now) k (in_place place.old)) }
    ensures place { in_place place.new ≡ (if result then None else in_place place.old) }
    ensures packet { place.new.packet ≡ place.old.packet }
{
    let back = back || sends(planned, k, place);
    place.used = place.used && !back;
    back
}

/// Empties each place that sends back, and all before it.
#[tactic(auto, using(crate::proofs::Moving::flush_none, crate::proofs::Moving::send_none))]
fn flush_places(planned: &Planned, places: &mut Vec<Stage>) -> bool
    requires few { length places.old.items ≤ 2 ^ 32 }
    requires of { HaveStageMemory (program_of planned.now.program.now) places.old.items }
    ensures places { map_list in_place places.new.items ≡ flushed (build_of planned.now) 0 (map_list in_place places.old.items) }
    ensures of { HaveStageMemory (program_of planned.now.program.now) places.new.items }
    ensures count { length places.new.items ≡ length places.old.items }
    ensures some { result ≡ some_send (build_of planned.now) 0 (map_list in_place places.old.items) }
{
    let mut back = false;
    let mut k = places.len();
    while k > 0 {
        k -= 1;
        back = flush_place(planned, k as u32, back, &mut places[k]);
    }
    back
}

/// A change marks the packet in place k, if there is one and the place is below another.
fn mark_place(
    planned: &Planned,
    to: usize,
    k: u32,
    tables: &Tables,
    change: &Change,
    place: &mut Stage,
)
    requires fits { AllFit tables.now.decls (program_of planned.now.program.now).sites }
    requires of { IsPacketOf (program_of planned.now.program.now) place.old.packet }
    ensures place { in_place place.new ≡ (if nat_lt k to then option_map (marked_by (build_of planned.now) tables.now k change.now) (in_place place.old) else in_place place.old) }
    ensures of { IsPacketOf (program_of planned.now.program.now) place.new.packet }
{
    if (k as usize) < to && place.used {
        place.packet.mark_by(planned, k, tables, change);
    }
}

/// A change marks the packets below a place.
#[tactic(auto, using(crate::proofs::Moving::mark_step, crate::proofs::Moving::mark_all))]
fn mark_places(
    planned: &Planned,
    to: usize,
    tables: &Tables,
    change: &Change,
    places: &mut Vec<Stage>,
)
    requires few { length places.old.items ≤ 2 ^ 32 }
    requires fits { AllFit tables.now.decls (program_of planned.now.program.now).sites }
    requires of { HaveStageMemory (program_of planned.now.program.now) places.old.items }
    ensures places { map_list in_place places.new.items ≡ marked_below to (build_of planned.now) tables.now change.now 0 (map_list in_place places.old.items) }
    ensures of { HaveStageMemory (program_of planned.now.program.now) places.new.items }
    ensures count { length places.new.items ≡ length places.old.items }
{
    for k in 0..places.len() {
        mark_place(planned, to, k as u32, tables, change, &mut places[k]);
    }
}

/// What moves on enters place k, and what was there moves on. The packet that moves on has the frame of the number.
fn move_place(
    planned: &Planned,
    k: u32,
    tables: &Tables,
    source: &Source,
    other: &PacketIn,
    moving: &mut Stage,
    place: &mut Stage,
)
    requires usable { IsUsable (program_of planned.now.program.now) }
    requires fits { AllFit tables.now.decls (program_of planned.now.program.now).sites }
    requires moving { IsPacketOf (program_of planned.now.program.now) moving.old.packet }
    ensures place { in_place place.new ≡ enters (build_of planned.now) tables.now k (arrival_of source.now) (in_place moving.old) }
    ensures moving { moving.new ≡ place.old }
    ensures of { IsPacketOf (program_of planned.now.program.now) place.new.packet }
{
    mem::swap(moving, place);
    if place.used {
        place.packet.enter(planned, k, tables, source, other);
    }
}

/// Each packet moves one place on, what is moving into the first; then what was in the last is moving.
#[tactic(auto, using(crate::proofs::Moving::older_step, crate::proofs::Moving::move_step, crate::proofs::Moving::move_all))]
fn move_places(
    planned: &Planned,
    tables: &Tables,
    frames: &[Arrived],
    other: &PacketIn,
    moving: &mut Stage,
    places: &mut Vec<Stage>,
)
    requires few { length places.old.items ≤ 2 ^ 32 }
    requires usable { IsUsable (program_of planned.now.program.now) }
    requires fits { AllFit tables.now.decls (program_of planned.now.program.now).sites }
    requires moving { IsPacketOf (program_of planned.now.program.now) moving.old.packet }
    requires of { HaveStageMemory (program_of planned.now.program.now) places.old.items }
    ensures places { map_list in_place places.new.items ≡ moved (build_of planned.now) tables.now frames.now 0 (in_place moving.old) (map_list in_place places.old.items) }
    ensures moving { IsPacketOf (program_of planned.now.program.now) moving.new.packet }
    ensures of { HaveStageMemory (program_of planned.now.program.now) places.new.items }
    ensures count { length places.new.items ≡ length places.old.items }
{
    let mut older = count_used(places);
    for k in 0..places.len() {
        let source = source_at(frames, older);
        move_place(
            planned,
            k as u32,
            tables,
            &source,
            other,
            moving,
            &mut places[k],
        );
        if moving.used {
            older -= 1;
        }
    }
}
