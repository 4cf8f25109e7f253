//! The beats of a frame, one by one.

ghost use Rattle.std.specs.Prelude.{◌≡◌, drop, slice_get, if◌then◌else◌};
ghost use Rattle.beat_core.specs.Beats.{beats_of};

use crate::beat::{Beat, first_beat};
use crate::frame::{FRAME_LIMIT, Frame, overwrite};
use std::marker::Model;

/// A clock machine that gives out the beats of a frame, from a copy in place. Contracts see the beats left.
#[derive(Debug, Drop)]
pub struct Scatter {
    buffer: [u8; FRAME_LIMIT],
    len: usize,
    at: usize,
}

impl Model for Scatter {
    ghost use Rattle.std.specs.Prelude.{◌≤◌, List, take, drop};
    ghost use Rattle.beat_core.specs.declared.beat.Beat.{Beat};

    ghost Value = { List Beat };

    ghost use Rattle.beat_core.specs.Beats.{beats_of};
    ghost use Rattle.beat_core.specs.declared.frame.TheConstants.{FRAME_LIMIT};

    ghost view = { λ s. beats_of (drop s.at (take s.len s.buffer)) };

    ghost invariant = { λ s. (s.at ≤ s.len) × (s.len ≤ FRAME_LIMIT) };
}

impl Scatter {
    /// All beats of the frame are left.
    pub fn new(frame: &Frame) -> Scatter
        ensures { result ≡ beats_of frame.now }
    {
        let mut buffer = [0; FRAME_LIMIT];
        overwrite(&mut buffer, 0, frame.bytes());
        Scatter {
            buffer,
            len: frame.len(),
            at: 0,
        }
    }

    /// One clock. It shows the first beat that is left, or none after the last. The beat goes over where
    /// `take` is true, and else it is shown again.
    pub fn clock(&mut self, take: bool) -> Option<Beat>
        ensures shown { result ≡ slice_get self.old 0 }
        ensures left { self.new ≡ (if take then drop 1 self.old else self.old) }
    {
        if self.at == self.len {
            return None;
        }
        let rest = &self.buffer[self.at..self.len];
        let beat = first_beat(rest);
        if take {
            self.at += rest.len().min(8);
        }
        Some(beat)
    }
}
