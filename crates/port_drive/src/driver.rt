//! A design, driven by packets that are given one at a time.

ghost use Rattle.std.specs.Prelude.{◌≡◌, ◌⊎◌, ◌+◌, ◌-◌, ◌<◌, ◌≤◌, ◌^◌, [], true, false, None, length, is_some, IsSome, IfOk};
ghost use Rattle.net_core.specs.Nets.{Netlist};
ghost use Rattle.net_core.specs.Clock.{Stored};
ghost use Rattle.beat_core.specs.declared.frame.Timed.{Timed};
ghost use Rattle.beat_core.specs.declared.frame.TheConstants.{FRAME_LIMIT};
ghost use Rattle.std.specs.Prelude.{List, ◌∷◌, ◌++◌, ◌==◌};
ghost use Rattle.net_core.specs.Trace.{Cycle};
ghost use Rattle.port_drive.specs.Driving.{Driving, undriven, with_packet, Fits, IsDue, Turns, ClocksOn};

use crate::advance::advance;
use crate::answer_room::AnswerRoom;
use crate::frame_room::FrameRoom;
use crate::report::{Drive, DriveError};
use crate::turn::Turn;
use clock_sim::Clocked;
use std::alloc::{AllocError, Global};
use std::marker::Model;

/// Drives a design by packets that are given one at a time, with room for one frame and one answer. At each clock the next beat
/// is offered, beside the interface number and the time of its packet, a last word filled up with zeros; what is shown is
/// taken, and the host is silent. Contracts see what it knows between two turns; it keeps counts, and nothing of the packets
/// and the clocks before.
#[derive(Drop)]
pub struct Driver {
    ifindex: u32,
    limit: u64,
    given: u64,
    ended: bool,
    answers: u64,
    clocks: u64,
    reloads: u64,
    frame: FrameRoom,
    answer: AnswerRoom,
}

impl Model for Driver {
    ghost use Rattle.std.specs.Prelude.{◌≤◌};
    ghost use Rattle.port_drive.specs.Driving.{Driving};

    ghost Value = { Driving };

    ghost view = { λ d. record {
      ifindex = d.ifindex;
      limit = d.limit;
      given = d.given;
      ended = d.ended;
      answers = d.answers;
      clocks = d.clocks;
      reloads = d.reloads;
      left = d.frame;
      begun = d.answer.begun;
      last = d.answer.last;
    } };

    ghost invariant = { λ d. (d.answers ≤ d.clocks) × (d.reloads ≤ d.clocks) × (d.clocks ≤ d.limit) };
}

impl Driver {
    /// No packet was given and no clock run. At most `limit` clocks are to be.
    pub fn open(alloc: Global, ifindex: u32, limit: u64) -> Result<Driver, AllocError>
        ensures view { IfOk result (λ driver. driver ≡ undriven ifindex limit) }
        ensures fits { IfOk result (λ driver. (d : Netlist) (s : Stored) → Fits driver d s s [] []) }
    {
        let frame = FrameRoom::new(alloc)?;
        let answer = AnswerRoom::new(alloc)?;
        Ok(Driver {
            ifindex,
            limit,
            given: 0,
            ended: false,
            answers: 0,
            clocks: 0,
            reloads: 0,
            frame,
            answer,
        })
    }

    /// Gives the next packet, where every beat of those before has gone over and more may come. It copies the frame, and
    /// takes no memory.
    pub fn give(&mut self, frame: &[u8], time: u64)
        requires over { self.old.left ≡ [] }
        requires more { self.old.ended ≡ false }
        requires some { 1 ≤ length frame.now }
        requires room { length frame.now ≤ FRAME_LIMIT }
        requires count { self.old.given < 2 ^ 64 - 1 }
        ensures view { self.new ≡ with_packet self.old (record { frame = frame.now; time = time }) }
        ensures fits { (d : Netlist) (first s : Stored) (packets : List Timed) (clocks : List Cycle) → Fits self.old d first s packets clocks → Fits self.new d first s (packets ++ record { frame = frame.now; time = time } ∷ []) clocks }
    {
        self.frame.set(self.ifindex, time, frame);
        self.given += 1;
    }

    /// No more packets come. No more answers have come than packets were given, and where there are as many, the last clock
    /// took the last of them.
    pub fn end(&mut self)
        requires few { self.old.answers ≤ self.old.given }
        requires last { self.old.answers ≡ self.old.given → (is_some self.old.last ≡ true) ⊎ (self.old.clocks ≡ 0) }
        ensures view { self.new ≡ record self.old { ended = true } }
        ensures fits { (d : Netlist) (first s : Stored) (packets : List Timed) (clocks : List Cycle) → Fits self.old d first s packets clocks → Fits self.new d first s packets clocks }
    {
        self.ended = true;
    }

    /// Runs clocks up to the next turn. An answer that ends in the clock in which a packet comes to be needed comes before
    /// that. It takes no memory unless an answer is longer than a frame.
    pub fn turn<C: Clocked>(&mut self, sim: &mut C) -> Result<Turn, DriveError>
        ensures turn { Turns self.old self.new (C.netlist sim.old) (C.stored sim.old) (C.stored sim.new) result }
        ensures netlist { C.netlist sim.new ≡ C.netlist sim.old }
        ensures same { (self.new.ifindex ≡ self.old.ifindex) × (self.new.limit ≡ self.old.limit) × (self.new.given ≡ self.old.given) × (self.new.ended ≡ self.old.ended) }
        ensures within { self.new.clocks ≤ self.new.limit }
    {
        loop {
            match self.due() {
                Some(turn) => return Ok(turn),
                None => {}
            }
            if self.is_late() {
                return Err(self.late());
            }
            match self.clock(sim) {
                Ok(true) => return Ok(Turn::Done),
                Ok(false) => {}
                Err(error) => return Err(error),
            }
        }
    }

    /// The answer that the last turn has ended, if it ended one.
    pub fn answer(&self) -> &AnswerRoom
        ensures last { result.now.last ≡ self.now.last }
    {
        &self.answer
    }

    /// How many answers were taken whole.
    pub fn answers(&self) -> u64
        ensures { result ≡ self.now.answers }
    {
        self.answers
    }

    /// How many packets were given.
    pub fn given(&self) -> u64
        ensures { result ≡ self.now.given }
    {
        self.given
    }

    /// What it took so far.
    pub fn report(&self) -> Drive
        ensures clocks { result.clocks ≡ self.now.clocks }
        ensures reloads { result.reloads ≡ self.now.reloads }
        ensures within { self.now.clocks ≤ self.now.limit }
    {
        Drive {
            clocks: self.clocks,
            reloads: self.reloads,
        }
    }

    // The turn that is due before a clock.
    fn due(&self) -> Option<Turn>
        ensures due { IsDue result self.now }
        ensures within { self.now.clocks ≤ self.now.limit }
    {
        if self.ended {
            if self.answers == self.given {
                return Some(Turn::Over);
            }
            return None;
        }
        if self.frame.is_over() {
            return Some(Turn::Need);
        }
        None
    }

    fn is_late(&self) -> bool
        ensures late { result ≡ (self.now.clocks == self.now.limit) }
        ensures within { self.now.clocks ≤ self.now.limit }
    {
        self.clocks == self.limit
    }

    fn late(&self) -> DriveError
        ensures { result ≡ DriveError.Late self.now.answers self.now.given self.now.limit }
    {
        DriveError::Late {
            answers: self.answers,
            frames: self.given,
            clocks: self.limit,
        }
    }

    // One clock. It says whether an answer has ended.
    fn clock<C: Clocked>(&mut self, sim: &mut C) -> Result<bool, DriveError>
        requires { self.old.clocks < self.old.limit }
        ensures clock { ClocksOn self.old self.new (C.netlist sim.old) (C.stored sim.old) (C.stored sim.new) result }
        ensures netlist { C.netlist sim.new ≡ C.netlist sim.old }
        ensures same { (self.new.ifindex ≡ self.old.ifindex) × (self.new.limit ≡ self.old.limit) × (self.new.given ≡ self.old.given) × (self.new.ended ≡ self.old.ended) }
        ensures within { self.new.clocks ≤ self.new.limit }
        ensures less { self.new.clocks ≤ self.old.clocks + 1 }
    {
        let shown = match advance(sim, &mut self.frame) {
            Ok(shown) => shown,
            Err(stopped) => return Err(DriveError::X(stopped)),
        };
        self.clocks += 1;
        self.reloads += u64::from(shown.out_reload);
        match self.answer.take(&shown) {
            Ok(ended) => {
                self.answers += u64::from(ended);
                Ok(ended)
            }
            Err(_) => Err(DriveError::NoMemory),
        }
    }
}
