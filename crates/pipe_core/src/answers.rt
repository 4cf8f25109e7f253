//! Answers, and the beats that they go out in.

ghost use Rattle.std.specs.Prelude.{◌≡◌, ◌+◌, ◌*◌, ◌≤◌, false, drop};
ghost use Rattle.realization.specs.beat_core.Beats.{first_beat};
ghost use Rattle.pipe_core.specs.Machine.{no_frame};
ghost use Rattle.pipe_core.specs.declared.arrived.TheConstants.{FRAME_ROOM};

use crate::arrived::Arrived;
use byteorder::{ByteOrder, LittleEndian};
use hazard_core::cell_core::xdp_state::beat_core::Beat;
use std::marker::Model;

/// The answer to a packet, in the buffer of its frame. Contracts see it as an `Answer`.
#[derive(Drop)]
pub struct Answered {
    pub(crate) verdict: u32,
    pub(crate) target: u32,
    pub(crate) arrived: Arrived,
}

impl Model for Answered {
    ghost use Rattle.realization.specs.beat_core.declared.answer.Answer.{Answer};

    ghost Value = { Answer };

    ghost view = { λ a. record { verdict = a.verdict; target = a.target; frame = a.arrived.frame } };
}

/// The beat of the first bytes of what is left of a frame.
fn first_beat(rest: &[u8]) -> Beat
    ensures { result ≡ first_beat rest.now }
{
    let count = rest.len().min(8);
    let word = if count == 0 {
        0
    } else {
        LittleEndian::read_uint(rest, count)
    };
    Beat {
        word,
        bytes: count as u8,
        last: rest.len() <= 8,
    }
}

impl Answered {
    /// The answer of a packet whose frame, as it leaves, is this.
    pub fn new(verdict: u32, target: u32, arrived: Arrived) -> Answered
        ensures { result ≡ record { verdict = verdict; target = target; frame = arrived.frame } }
    {
        Answered {
            verdict,
            target,
            arrived,
        }
    }

    pub fn verdict(&self) -> u32
        ensures { result ≡ self.now.verdict }
    {
        self.verdict
    }

    pub fn target(&self) -> u32
        ensures { result ≡ self.now.target }
    {
        self.target
    }

    /// The beat of a number.
    pub fn beat(&self, number: usize) -> Beat
        requires { 8 * number ≤ FRAME_ROOM }
        ensures beat { result ≡ first_beat (drop (8 * number) self.now.frame) }
        ensures more { result.last ≡ false → 8 * (number + 1) ≤ FRAME_ROOM }
    {
        let bytes = self.arrived.bytes();
        let from = (8 * number).min(bytes.len());
        first_beat(&bytes[from..])
    }

    /// Its buffer, with nothing in it.
    pub fn emptied(self) -> Arrived
        ensures { result ≡ no_frame }
    {
        let mut arrived = self.arrived;
        arrived.clear();
        arrived
    }
}
