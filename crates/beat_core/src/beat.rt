//! The beats of a frame.

ghost use Rattle.std.specs.Prelude.{◌≡◌, ◌<◌, length, IfOk};
ghost use Rattle.beat_core.specs.Beats.{beats_of, first_beat, frame_of, IsWhole, beat_count};

use crate::frame::Frame;
use byteorder::{ByteOrder, LittleEndian};
use std::alloc::{AllocError, Global};

/// What goes over in one clock: up to eight bytes of a frame, byte 0 in bits 7 to 0 of the word. `bytes`
/// says how many of them count (0 is a beat without bytes, above 8 counts as 8), and `last` that the frame
/// ends here.
#[derive(Clone, Copy, Debug, PartialEq, Eq)]
pub struct Beat {
    pub word: u64,
    pub bytes: u8,
    pub last: bool,
}

/// The beat of the first bytes of what is left of a frame.
pub(crate) fn first_beat(rest: &[u8]) -> Beat
    requires { 0 < length rest.now }
    ensures { result ≡ first_beat rest.now }
{
    let count = rest.len().min(8);
    Beat {
        word: LittleEndian::read_uint(rest, count),
        bytes: count as u8,
        last: rest.len() <= 8,
    }
}

/// The beats of a frame: eight bytes in each but the last, which has 1 to 8 and alone is last. A last word
/// is filled up with zeros.
pub fn beats_of(alloc: Global, frame: &Frame) -> Result<Vec<Beat>, AllocError>
    ensures beats { IfOk result (λ beats. beats.items ≡ beats_of frame.now) }
    // They are the beats of one whole frame, and put together they are this one.
    ensures whole { IfOk result (λ beats. IsWhole beats.items) }
    ensures frame { IfOk result (λ beats. frame_of beats.items ≡ frame.now) }
    ensures count { IfOk result (λ beats. length beats.items ≡ beat_count (length frame.now)) }
{
    let mut beats = Vec::new(alloc);
    let mut rest = frame.bytes();
    while !rest.is_empty() {
        beats.push(first_beat(rest))?;
        rest = &rest[rest.len().min(8)..];
    }
    Ok(beats)
}
