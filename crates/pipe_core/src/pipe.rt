//! The pipe of a program, clock by clock.

ghost use Rattle.std.specs.Prelude.{◌≡◌, ◌+◌, ◌-◌, ◌<◌, ◌≤◌, ◌^◌, ℕ, suc, IsTrue, IfOk, None, if◌then◌else◌, ◌%◌, IfSome, OnErr, OnOk, Some, is_some, ◌&&◌, ◌||◌, not, nat_lt, length, slice_index, false, true, Bool, ◌*◌};
ghost use Rattle.pipe_core.specs.declared.arrived.TheConstants.{FRAME_ROOM};
ghost use Rattle.std.specs.Option.{option_and_then};
ghost use Rattle.hazard_core.specs.cell_core.Cells.{bit};
ghost use Rattle.hazard_core.specs.cell_core.Formed.{AllFit};
ghost use Rattle.hazard_core.specs.cell_core.View.{program_of};
ghost use Rattle.hazard_core.specs.Tabled.{AreTables};
ghost use Rattle.hazard_core.specs.Tables.{maps_of};
ghost use Rattle.pipe_core.specs.Machine.{Packet, Commits, Writes, Moves, new_state, inside, place_at, flushed, some_send, chosen, is_idle, is_ready, commits_or_moves, host_ready, host_writes, host_value, action_as, worked, work, gathered, scattered, beat_over, shown_beat, taken_beat, clock, output};
ghost use Rattle.pipe_core.specs.Planned.{IsUsable};
ghost use Rattle.pipe_core.specs.BuildView.{BuildView, build_in};
ghost use Rattle.pipe_core.specs.PipeView.{input_of, output_of, has_room};
ghost use Rattle.pipe_core.specs.Points.{KeepsPoints};

use crate::places::Places;
use crate::planned::Planned;
use crate::points::points;
use crate::ports::{In, Out};
use crate::queue::Queue;
use hazard_core::access::Access;
use hazard_core::cell_core::program::CellProgram;
use hazard_core::cell_core::xdp_state::beat_core::Beat;
use hazard_core::cell_core::xdp_state::xdp_maps::state::Maps;
use hazard_core::commit::{change_by, commit};
use hazard_core::host::{host_change, may_write, shown_to_host, write};
use hazard_core::table_maps::maps_of;
use hazard_core::tables::Tables;
use row_plan::RowPlan;
use std::alloc::{AllocError, Global};
use std::marker::Model;

/// A pipe: a program with its plan, the tables of its maps, the frames inside, and the packets in their places. Contracts see a `PipeView`.
#[derive(Drop)]
pub struct Pipe<'a> {
    tables: Tables,
    queue: Queue,
    places: Places<'a>,
    done: usize,
    taken: Vec<usize>,
    passed: u32,
}

impl<'a> Model for Pipe<'a> {
    ghost use Rattle.pipe_core.specs.PipeView.{PipeView, IsSteady};
    ghost use Rattle.pipe_core.specs.StateView.{state_of};
    ghost use Rattle.pipe_core.specs.BuildView.{build_in};

    ghost Value = { PipeView };

    ghost view = { λ p. record { build = p.places.build; state = state_of p.tables p.queue p.places.places p.done p.taken.items p.passed } };

    ghost invariant = { λ p. IsSteady (build_in p.places.build) (state_of p.tables p.queue p.places.places p.done p.taken.items p.passed) p.queue.slots };
}

/// Whether the host need not wait, where there is a packet at the commit place or not.
fn is_free(idle: bool, packet: bool, done: usize) -> bool
    ensures { result ≡ (idle || not (packet && nat_lt 0 done)) }
{
    idle || !(packet && 0 < done)
}

/// What the host is to write in a clock.
fn host_writes(
    ready: bool,
    idle: bool,
    tables: &Tables,
    host: Option<Access>,
) -> Option<(Access, u64)>
    ensures writes { result ≡ host_writes ready idle tables.now host }
    ensures map { IfSome result (λ w. w.0.map < length tables.now.decls) }
{
    let access = host?;
    let number = access.write?;
    if ready && may_write(tables, idle, access) {
        Some((access, number))
    } else {
        None
    }
}

/// What the host reads.
fn host_value(ready: bool, tables: &Tables, host: Option<Access>) -> u64
    ensures { result ≡ host_value ready tables.now host }
{
    match host {
        Some(access) if ready => shown_to_host(tables, access),
        _ => 0,
    }
}

/// A beat, where something is so.
fn beat_if(so: bool, beat: Option<Beat>) -> Option<Beat>
    ensures { result ≡ (if so then beat else None) }
{
    if so { beat } else { None }
}

/// How many packets have passed, with one that may.
fn counted(passed: u32, passes: bool) -> u32
    ensures { result ≡ (passed + bit passes) % 2 ^ 32 }
{
    if passes {
        passed.wrapping_add(1)
    } else {
        passed
    }
}

/// Whether there is a packet in place k.
#[tactic(auto, using(crate::proofs::Piping::some_map))]
fn has_packet(places: &Places, k: usize) -> bool
    ensures { result ≡ is_some (place_at places.now.places k) }
{
    places.at(k).is_some()
}

/// The next operation of the packet at the commit place that writes, if there is one.
fn next_commit(places: &Places, tables: &Tables, done: usize) -> Option<usize>
    requires { AllFit tables.now.decls places.now.build.program.sites }
    ensures chosen { result ≡ option_and_then (chosen (build_in places.now.build) tables.now done) (place_at places.now.places places.now.build.commit) }
    ensures site { IfSome result (λ j. j < length places.now.build.program.sites) }
{
    let planned = places.planned();
    let packet = places.at(planned.commit as usize)?;
    packet.chosen(planned, tables, done)
}

impl<'a> Pipe<'a> {
    /// A pipe of a program, with room for so many frames, and with its maps loaded.
    pub fn new(
        alloc: Global,
        program: &'a CellProgram,
        plan: &RowPlan,
        maps: &Maps,
        slots: u32,
    ) -> Result<Pipe<'a>, AllocError>
        requires usable { IsUsable (program_of program.now) }
        requires fits { AllFit maps.now.decls (program_of program.now).sites }
        requires maps { length maps.now.decls < 2 ^ 32 }
        requires cells { length program.now.cells.items < 2 ^ 32 }
        requires rows { length plan.now.rows ≡ length program.now.cells.items }
        ensures { IfOk result (λ p. p ≡ (let b : BuildView = record {
          program = program_of program.now;
          rows = plan.now.rows;
          commit = plan.now.commit;
          last = plan.now.last;
          slots = slots;
        } in record { build = b; state = new_state (build_in b) maps.now })) }
    {
        let planned = Planned::new(alloc, program, plan, slots)?;
        let sites = program.sites.len();
        Ok(Pipe {
            tables: Tables::new(alloc, maps)?,
            queue: Queue::new(alloc, slots as usize)?,
            places: Places::new(alloc, planned)?,
            done: 0,
            taken: vec![in alloc; 0; sites]?,
            passed: 0,
        })
    }

    /// Whether no frame is inside, or has begun.
    pub fn is_idle(&self) -> bool
        ensures { result ≡ is_idle self.now.state }
    {
        self.queue.is_idle()
    }

    /// Loads other maps while no frame is inside. An `Err` changes nothing.
    pub fn load(&mut self, alloc: Global, maps: &Maps) -> Result<(), AllocError>
        requires idle { IsTrue (is_idle self.old.state) }
        requires maps { length maps.now.decls < 2 ^ 32 }
        requires decls { maps.now.decls ≡ self.old.state.tables.decls }
        ensures ok { OnOk result (self.new ≡ record self.old { state = new_state (build_in self.old.build) maps.now }) }
        ensures err { OnErr result (self.new ≡ self.old) }
    {
        self.tables = Tables::new(alloc, maps)?;
        self.queue.rewind();
        self.done = 0;
        self.taken.fill(0);
        self.passed = 0;
        Ok(())
    }

    /// The tables of the maps.
    pub fn tables(&self) -> &Tables
        ensures { result.now ≡ self.now.state.tables }
    {
        &self.tables
    }

    /// The maps that the tables stand for, as a copy. The tables are those of maps over all clocks while the host is silent.
    pub fn maps(&self, alloc: Global) -> Result<Maps, AllocError>
        requires { length self.now.state.tables.decls < 2 ^ 32 }
        ensures decls { IfOk result (λ maps. maps.decls ≡ self.now.state.tables.decls) }
        ensures maps { IfOk result (λ maps. AreTables self.now.state.tables → maps ≡ maps_of self.now.state.tables) }
    {
        maps_of(alloc, &self.tables)
    }

    /// Whether a beat that is offered fits the frame that comes.
    pub fn has_room(&self, beat: Option<Beat>) -> bool
        ensures { result ≡ has_room self.now.state beat }
    {
        match beat {
            Some(beat) => self.queue.has_room(&beat),
            None => true,
        }
    }

    /// Whether the access of the host is done.
    fn host_ready(&self) -> bool
        ensures { result ≡ host_ready (build_in self.now.build) self.now.state }
    {
        let at = self.places.planned().commit as usize;
        let packet = has_packet(&self.places, at);
        let idle = self.queue.is_idle();
        is_free(idle, packet, self.done)
    }

    /// Empties each place that sends back, and all before it. The answer is whether one did.
    fn flush(&mut self) -> bool
        ensures pipe { self.new ≡ record self.old { state = record self.old.state { places = flushed (build_in self.old.build) 0 self.old.state.places } } }
        ensures some { result ≡ some_send (build_in self.old.build) 0 self.old.state.places }
    {
        self.places.flush()
    }

    /// The packet at the commit place does the operation of site j, and marks the packets before it.
    fn commit(&mut self, j: usize)
        requires { j < length self.old.build.program.sites }
        ensures { (back : Bool) (x : Packet) → place_at self.old.state.places self.old.build.commit ≡ Some x →
            self.new ≡ record self.old { state = worked (build_in self.old.build) self.old.state back self.old.state.places (Commits j x) } }
    {
        let planned = self.places.planned();
        let at = planned.commit as usize;
        if let Some(packet) = self.places.at(at) {
            let held = packet.held();
            let change = change_by(planned.program, &self.tables, &self.taken, held, j);
            commit(planned.program, &mut self.tables, &mut self.taken, held, j);
            self.done = j + 1;
            self.places.mark_below(at, &self.tables, &change);
        }
    }

    /// The host writes, and marks packets.
    fn write(&mut self, access: Access, number: u64)
        requires { access.map < length self.old.state.tables.decls }
        ensures { (back : Bool) → self.new ≡ record self.old { state = worked (build_in self.old.build) self.old.state back self.old.state.places (Writes access number) } }
    {
        let to = self.places.planned().commit as usize + 1;
        let change = host_change(&self.tables, access);
        write(&mut self.tables, access, number);
        self.places.mark_below(to, &self.tables, &change);
    }

    /// The packets move on: that of the last place answers the oldest frame, and the next frame that waits is injected.
    fn advance(&mut self, back: bool)
        ensures { self.new ≡ record self.old { state = worked (build_in self.old.build) self.old.state back self.old.state.places Moves } }
    {
        let planned = self.places.planned();
        let leaving = self.places.at(planned.last as usize);
        let left = self.queue.leave(planned.program, leaving);
        let passes = has_packet(&self.places, planned.commit as usize);
        self.places.advance(&self.tables, self.queue.frames(), back);
        self.queue.answer(left);
        self.done = 0; // of the next packet there no site is through
        let passed = counted(self.passed, passes);
        self.passed = passed;
    }

    /// An operation of the packet at the commit place is done, or the packets move on.
    fn step(&mut self, back: bool)
        ensures { self.new ≡ record self.old { state = worked (build_in self.old.build) self.old.state back self.old.state.places (commits_or_moves (build_in self.old.build) self.old.state (place_at self.old.state.places self.old.build.commit)) } }
    {
        match next_commit(&self.places, &self.tables, self.done) {
            Some(j) => self.commit(j),
            None => self.advance(back),
        }
    }

    /// The host writes, or that is done.
    fn action(&mut self, back: bool, writes: Option<(Access, u64)>)
        requires { IfSome writes (λ w. w.0.map < length self.old.state.tables.decls) }
        ensures { self.new ≡ record self.old { state = worked (build_in self.old.build) self.old.state back self.old.state.places (action_as (build_in self.old.build) self.old.state self.old.state.places writes) } }
    {
        match writes {
            Some(write) => self.write(write.0, write.1),
            None => self.step(back),
        }
    }

    /// The work of a clock, and how many packets it sends back.
    fn work(&mut self, input: &In) -> usize
        ensures pipe { self.new ≡ record self.old { state = work (build_in self.old.build) (input_of input.now) self.old.state } }
        ensures ready { is_ready (build_in self.old.build) self.new.state ≡ is_ready (build_in self.old.build) self.old.state }
        ensures reloaded { result ≡ inside self.old.state.places - inside (flushed (build_in self.old.build) 0 self.old.state.places) }
    {
        let ready = self.host_ready();
        let writes = host_writes(ready, self.queue.is_idle(), &self.tables, input.host);
        let before = self.places.count();
        let back = self.flush();
        let after = self.places.count();
        self.action(back, writes);
        before - after
    }

    /// The beat that is offered goes over.
    fn gather(&mut self, input: &In, over: Option<Beat>)
        requires room { IsTrue (has_room self.old.state over) }
        requires slot { is_some over ≡ true → IsTrue (is_ready (build_in self.old.build) self.old.state) }
        ensures { self.new ≡ record self.old { state = gathered self.old.state (input_of input.now) over } }
    {
        if let Some(beat) = over {
            self.queue.gather(&beat, input.ifindex, input.time);
        }
    }

    /// The beat that is shown is taken.
    fn scatter(&mut self, taken: Option<Beat>)
        requires some { is_some taken ≡ true → 0 < length self.old.state.answers }
        requires more { IfSome taken (λ b. b.last ≡ false → 8 * (self.old.state.pos + 1) ≤ FRAME_ROOM) }
        ensures { self.new ≡ record self.old { state = scattered self.old.state taken } }
    {
        if let Some(beat) = taken {
            self.queue.give(beat.last);
        }
    }

    /// What is shown in a clock, but for the packets that are sent back.
    fn shown(&self, input: &In) -> Out
        ensures more { IfSome result.beat (λ b. b.last ≡ false → 8 * (self.now.state.pos + 1) ≤ FRAME_ROOM) }
        ensures output { output_of result ≡ record (output (build_in self.now.build) (input_of input.now) self.now.state) { reloaded = 0 } }
    {
        let (verdict, target) = self.queue.first();
        let host_ready = self.host_ready();
        Out {
            ready: self.queue.is_ready(),
            beat: self.queue.shown(),
            verdict,
            target,
            reloaded: 0,
            host_ready,
            host_value: host_value(host_ready, &self.tables, input.host),
            host_passed: self.passed,
        }
    }

    /// One clock. It takes no memory. Where a beat comes, the frame that it belongs to has room for it.
    pub fn clock(&mut self, input: In) -> Out
        requires room { IsTrue (has_room self.old.state input.beat) }
        ensures build { self.new.build ≡ self.old.build }
        ensures state { self.new.state ≡ clock (build_in self.old.build) (input_of input) self.old.state }
        ensures output { output_of result ≡ output (build_in self.old.build) (input_of input) self.old.state }
        ensures points { KeepsPoints (build_in self.old.build) (input_of input) self.old.state self.new.state }
    {
        points();
        let mut out = self.shown(&input);
        let over = beat_if(out.ready, input.beat);
        let taken = beat_if(input.take, out.beat);
        let reloaded = self.work(&input);
        self.gather(&input, over);
        self.scatter(taken);
        out.reloaded = reloaded;
        out
    }
}
