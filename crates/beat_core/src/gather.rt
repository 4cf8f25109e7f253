//! A frame from its beats.

ghost use Rattle.std.specs.Prelude.{◌≡◌, ◌+◌, ◌≤◌, ◌++◌, [], length, take, IfOk, false};
ghost use Rattle.std.specs.Option.{ForSome, option_map_or};
ghost use Rattle.beat_core.specs.Beats.{bytes_of_beat};
ghost use Rattle.beat_core.specs.Words.{low_bytes};
ghost use Rattle.beat_core.specs.Clocks.{nothing_gathered, begun, after_clock, AreOffers, went_over, frames_among};

use crate::answer::Bytes;
use crate::beat::Beat;
use crate::frame::{FRAME_LIMIT, overwrite};
use byteorder::{ByteOrder, LittleEndian};
use std::alloc::{AllocError, Global};
use std::marker::Model;

/// A clock machine that puts the beats of a frame together, in place. Contracts see the bytes so far and
/// whether they are a whole frame.
#[derive(Debug, Drop)]
pub struct Gather {
    buffer: [u8; FRAME_LIMIT],
    len: usize,
    whole: bool,
}

impl Model for Gather {
    ghost use Rattle.std.specs.Prelude.{◌≤◌, take};
    ghost use Rattle.beat_core.specs.Clocks.{Gathered};
    ghost use Rattle.beat_core.specs.declared.frame.TheConstants.{FRAME_LIMIT};

    ghost Value = { Gathered };

    ghost view = { λ g. record { bytes = take g.len g.buffer; whole = g.whole } };

    ghost invariant = { λ g. g.len ≤ FRAME_LIMIT };
}

impl Gather {
    pub fn new() -> Gather
        ensures { result ≡ nothing_gathered }
    {
        Gather {
            buffer: [0; FRAME_LIMIT],
            len: 0,
            whole: false,
        }
    }

    /// One clock, in which a beat comes or none. A beat adds its bytes, and the one after a last beat begins
    /// a frame anew. The answer is true exactly for a last beat. Well-formed offers always have room.
    pub fn clock(&mut self, beat: Option<Beat>) -> bool
        requires { ForSome beat (λ b. length (begun self.old ++ bytes_of_beat b) ≤ FRAME_LIMIT) }
        ensures after { self.new ≡ after_clock self.old beat }
        ensures last { result ≡ option_map_or (λ b. b.last) beat false }
    {
        let Some(beat) = beat else {
            return false;
        };
        let at = if self.whole { 0 } else { self.len };
        self.len = write_beat(&mut self.buffer, at, &beat);
        self.whole = beat.last;
        beat.last
    }

    /// The bytes of the frame so far, or of the whole frame after its last beat.
    pub fn bytes(&self) -> &[u8]
        ensures bytes { result.now ≡ self.now.bytes }
        ensures room { length result.now ≤ FRAME_LIMIT }
    {
        &self.buffer[..self.len]
    }

    /// Whether the last beat was a last one, so that the bytes are a whole frame.
    pub fn is_whole(&self) -> bool
        ensures { result ≡ self.now.whole }
    {
        self.whole
    }
}

/// Writes the bytes of a beat from a place on, and answers the place after them.
fn write_beat(buffer: &mut [u8], at: usize, beat: &Beat) -> usize
    requires { at + length (bytes_of_beat beat.now) ≤ length buffer.old }
    ensures end { result ≡ at + length (bytes_of_beat beat.now) }
    ensures prefix { take result buffer.new ≡ take at buffer.old ++ bytes_of_beat beat.now }
{
    let bytes = bytes_of_word(beat.word);
    let count = (beat.bytes as usize).min(8);
    overwrite(buffer, at, &bytes[..count]);
    at + count
}

/// The bytes of a word, the lowest first.
fn bytes_of_word(word: u64) -> [u8; 8]
    ensures { result ≡ low_bytes 8 word }
{
    let mut bytes = [0; 8];
    LittleEndian::write_u64(&mut bytes, word);
    bytes
}

/// The whole frames that come in a list of clocks, put together by one `Gather`.
pub fn frames_of(alloc: Global, clocks: &[Option<Beat>]) -> Result<Vec<Bytes>, AllocError>
    requires { AreOffers 0 (went_over clocks.now) }
    ensures { IfOk result (λ frames. frames.items ≡ frames_among [] (went_over clocks.now)) }
{
    let mut gather = Gather::new();
    let mut frames = Vec::new(alloc);
    for beat in clocks {
        if gather.clock(*beat) {
            frames.push(Bytes::of(alloc, gather.bytes())?)?;
        }
    }
    Ok(frames)
}
