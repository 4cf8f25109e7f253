//! The frames inside a pipe, and their answers, in buffers that are made at the start.

ghost use Rattle.std.specs.Prelude.{◌≡◌, ◌+◌, ◌*◌, ◌<◌, ◌≤◌, ◌&&◌, not, IsTrue, IsSome, IfOk, IfSome, is_some, min, nat_lt, nat_le, length, vec_capacity, false};
ghost use Rattle.std.specs.Option.{ForSome, option_map};
ghost use Rattle.hazard_core.specs.cell_core.View.{program_of};
ghost use Rattle.realization.specs.beat_core.Ports.{arrived, offered};
ghost use Rattle.pipe_core.specs.Machine.{beat_at, first_answer};
ghost use Rattle.pipe_core.specs.FrameQueue.{empty_frame_queue, has_slot, came_bytes, gathered_as, given_as, left_frames, left_word, answered_as};
ghost use Rattle.pipe_core.specs.Planned.{IsUsable, IsPacketOf};
ghost use Rattle.pipe_core.specs.declared.arrived.TheConstants.{FRAME_ROOM};

use crate::answers::Answered;
use crate::arrived::{Arrived, FRAME_ROOM};
use crate::packet::Packet;
use hazard_core::cell_core::program::CellProgram;
use hazard_core::cell_core::xdp_state::beat_core::Beat;
use std::alloc::{AllocError, Global};
use std::marker::Model;

/// The frames without an answer and the answers that are not given wholly, each the oldest first, and the frame of which the last beat has
/// not come. Each has a buffer of its own. Contracts see a `FrameQueue`.
#[derive(Drop)]
pub struct Queue {
    answers: Vec<Answered>,
    pos: usize,
    frames: Vec<Arrived>,
    part: Option<Arrived>,
    spare: Vec<Arrived>,
    slots: usize,
}

impl Model for Queue {
    ghost use Rattle.std.specs.Prelude.{is_some, length, vec_capacity};
    ghost use Rattle.hazard_core.specs.cell_core.Cells.{bit};
    ghost use Rattle.pipe_core.specs.FrameQueue.{FrameQueue, AreHoused};

    ghost Value = { FrameQueue };

    ghost view = { λ q. record { answers = q.answers.items; pos = q.pos; frames = q.frames.items; part = q.part; slots = q.slots } };

    ghost invariant = { λ q. AreHoused q.slots (length q.answers.items) (length q.frames.items) (bit (is_some q.part)) (length q.spare.items) (vec_capacity q.answers) (vec_capacity q.frames) (vec_capacity q.spare) q.pos };
}

/// So many buffers.
fn buffers(alloc: Global, count: usize) -> Result<Vec<Arrived>, AllocError>
    ensures count { IfOk result (λ v. length v.items ≡ count) }
    ensures room { IfOk result (λ v. count ≤ vec_capacity v) }
{
    let mut all = Vec::with_capacity(alloc, count)?;
    for _ in 0..count {
        all.push_reserved(Arrived::new(alloc)?);
    }
    Ok(all)
}

impl Queue {
    /// Nothing is inside.
    pub fn new(alloc: Global, slots: usize) -> Result<Queue, AllocError>
        ensures { IfOk result (λ q. q ≡ empty_frame_queue slots) }
    {
        Ok(Queue {
            answers: Vec::with_capacity(alloc, slots)?,
            pos: 0,
            frames: Vec::with_capacity(alloc, slots)?,
            part: None,
            spare: buffers(alloc, slots)?,
            slots,
        })
    }

    /// Whether a beat that is offered goes over.
    pub fn is_ready(&self) -> bool
        ensures { result ≡ has_slot self.now }
    {
        self.part.is_some() || self.answers.len() + self.frames.len() < self.slots
    }

    /// Whether no frame is inside, or has begun.
    pub fn is_idle(&self) -> bool
        ensures { result ≡ (not (is_some self.now.part) && nat_lt (length self.now.answers + length self.now.frames) 1) }
    {
        self.part.is_none() && self.answers.is_empty() && self.frames.is_empty()
    }

    /// Whether a beat more fits the buffer of the frame that is coming.
    pub fn has_room(&self, beat: &Beat) -> bool
        ensures { result ≡ nat_le (came_bytes self.now.part + min beat.now.bytes 8) FRAME_ROOM }
    {
        let came = match &self.part {
            Some(arrived) => arrived.bytes().len(),
            None => 0,
        };
        came + (beat.bytes as usize).min(8) <= FRAME_ROOM
    }

    /// The frames without an answer.
    pub fn frames(&self) -> &[Arrived]
        ensures { result.now ≡ self.now.frames }
    {
        &self.frames
    }

    /// The next beat of the oldest answer.
    pub fn shown(&self) -> Option<Beat>
        ensures beat { result ≡ beat_at self.now.pos self.now.answers }
        ensures more { IfSome result (λ b. b.last ≡ false → 8 * (self.now.pos + 1) ≤ FRAME_ROOM) }
    {
        match self.answers.first() {
            Some(answer) => Some(answer.beat(self.pos)),
            None => None,
        }
    }

    /// The verdict and the target of the oldest answer.
    pub fn first(&self) -> (u32, u32)
        ensures verdict { result.0 ≡ (first_answer self.now.answers).verdict }
        ensures target { result.1 ≡ (first_answer self.now.answers).target }
    {
        match self.answers.first() {
            Some(answer) => (answer.verdict(), answer.target()),
            None => (0, 0),
        }
    }

    /// A beat comes; a frame waits once its last beat has come.
    pub fn gather(&mut self, beat: &Beat, ifindex: u32, time: u64)
        requires slot { IsTrue (has_slot self.old) }
        requires room { came_bytes self.old.part + min beat.now.bytes 8 ≤ FRAME_ROOM }
        ensures { self.new ≡ gathered_as beat.now.last (arrived self.old.part (offered ifindex time beat.now)) self.old }
    {
        let arrived = match self.part.take() {
            Some(mut arrived) => {
                arrived.append(beat);
                arrived
            }
            None => {
                let mut arrived = self.spare.take_last();
                arrived.begin(ifindex, time, beat);
                arrived
            }
        };
        if beat.last {
            self.frames.push_reserved(arrived);
        } else {
            self.part = Some(arrived);
        }
    }

    /// A beat of the oldest answer goes; the answer goes with its last one.
    pub fn give(&mut self, last: bool)
        requires some { 0 < length self.old.answers }
        requires more { last ≡ false → 8 * (self.old.pos + 1) ≤ FRAME_ROOM }
        ensures { self.new ≡ given_as last self.old }
    {
        if last {
            let answer = self.answers.remove(0);
            self.spare.push_reserved(answer.emptied());
            self.pos = 0;
        } else {
            self.pos += 1;
        }
    }

    /// The packet of the oldest frame, if it leaves, leaves what it answers there: its verdict and its target.
    pub(crate) fn leave(
        &mut self,
        program: &CellProgram,
        leaving: Option<&Packet>,
    ) -> Option<(u32, u32)>
        requires usable { IsUsable (program_of program.now) }
        requires of { ForSome leaving (λ x. IsPacketOf (program_of program.now) x.now) }
        requires frame { IsSome leaving → 0 < length self.old.frames }
        ensures queue { self.new ≡ record self.old { frames = left_frames (program_of program.now) (option_map (λ x. x.now) leaving.entry) self.old.frames } }
        ensures answer { result ≡ option_map (λ x. left_word (program_of program.now) x.now) leaving.entry }
    {
        match leaving {
            Some(packet) => {
                let frame = &mut self.frames[0];
                packet.put_bytes(program, frame);
                Some((packet.verdict(program), packet.target(program)))
            }
            None => None,
        }
    }

    /// The oldest frame, if it is an answer, goes over to the answers.
    pub(crate) fn answer(&mut self, left: Option<(u32, u32)>)
        requires { IsSome left → 0 < length self.old.frames }
        ensures { self.new ≡ answered_as left self.old }
    {
        if let Some((verdict, target)) = left {
            let arrived = self.frames.remove(0);
            self.answers
                .push_reserved(Answered::new(verdict, target, arrived));
        }
    }

    /// The next answer is shown from its first beat on.
    pub(crate) fn rewind(&mut self)
        ensures { self.new ≡ record self.old { pos = 0 } }
    {
        self.pos = 0;
    }
}
