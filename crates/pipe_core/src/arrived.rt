//! A frame that came, with what came beside it, in memory of its own.

ghost use Rattle.std.specs.Prelude.{◌≡◌, ◌+◌, ◌≤◌, ◌++◌, [], length, slice_set, take, drop, None, IfOk};
ghost use Rattle.std.proofs.Common.{get_or};
ghost use Rattle.realization.specs.beat_core.Words.{low_bytes};
ghost use Rattle.realization.specs.beat_core.Beats.{bytes_of_beat};
ghost use Rattle.realization.specs.beat_core.Ports.{arrived, offered};
ghost use Rattle.pipe_core.specs.Machine.{no_frame};
ghost use Rattle.pipe_core.specs.Planned.{arrival_of};

use byteorder::{ByteOrder, LittleEndian};
use hazard_core::cell_core::xdp_state::beat_core::{Beat, FRAME_LIMIT};
use hazard_core::rows::Source;
use std::alloc::{AllocError, Global};
use std::marker::Model;

/// The most bytes of a frame that comes.
pub const FRAME_ROOM: usize = FRAME_LIMIT;

/// A frame that came whole, or so far, with the interface and the time of its first beat. It takes memory where it is made, and none
/// later. Contracts see an `Arrival`.
#[derive(Drop)]
pub struct Arrived {
    buffer: Vec<u8>,
    len: usize,
    ifindex: u32,
    time: u64,
}

impl Model for Arrived {
    ghost use Rattle.std.specs.Prelude.{◌≡◌, ◌≤◌, take, length};
    ghost use Rattle.realization.specs.beat_core.Ports.{Arrival};
    ghost use Rattle.pipe_core.specs.declared.arrived.TheConstants.{FRAME_ROOM};

    ghost Value = { Arrival };

    ghost view = { λ a. record { ifindex = a.ifindex; time = a.time; frame = take a.len a.buffer.items } };

    ghost invariant = { λ a. (length a.buffer.items ≡ FRAME_ROOM) × (a.len ≤ FRAME_ROOM) };
}

impl Arrived {
    /// Memory for a frame.
    pub fn new(alloc: Global) -> Result<Arrived, AllocError>
        ensures { IfOk result (λ a. a ≡ no_frame) }
    {
        Ok(Arrived {
            buffer: vec![in alloc; 0; FRAME_ROOM]?,
            len: 0,
            ifindex: 0,
            time: 0,
        })
    }

    /// Forgets its frame.
    pub fn clear(&mut self)
        ensures { self.new ≡ no_frame }
    {
        self.len = 0;
        self.ifindex = 0;
        self.time = 0;
    }

    /// The first beat of a frame comes, with the interface and the time beside it.
    #[tactic(auto, using(crate::proofs::Arriving::few_bytes))]
    pub fn begin(&mut self, ifindex: u32, time: u64, beat: &Beat)
        ensures { self.new ≡ arrived None (offered ifindex time beat.now) }
    {
        self.len = write_beat(&mut self.buffer, 0, beat);
        self.ifindex = ifindex;
        self.time = time;
    }

    /// A further beat comes.
    pub fn append(&mut self, beat: &Beat)
        requires { length self.old.frame + length (bytes_of_beat beat.now) ≤ FRAME_ROOM }
        ensures { self.new ≡ record self.old { frame = self.old.frame ++ bytes_of_beat beat.now } }
    {
        self.len = write_beat(&mut self.buffer, self.len, beat);
    }

    /// The bytes of the frame.
    pub fn bytes(&self) -> &[u8]
        ensures bytes { result.now ≡ self.now.frame }
        ensures room { length self.now.frame ≤ FRAME_ROOM }
    {
        &self.buffer[..self.len]
    }

    /// Changes a byte, if there is such a one.
    #[tactic(auto, using(crate::proofs::Arriving::put_taken))]
    pub fn set(&mut self, at: usize, byte: u8)
        ensures { self.new ≡ record self.old { frame = slice_set self.old.frame at byte } }
    {
        if at < self.len {
            self.buffer[at] = byte;
        }
    }

    /// What a packet reads of it.
    pub fn source(&self) -> Source<'_>
        ensures { arrival_of result ≡ self.now }
    {
        Source {
            frame: &self.buffer[..self.len],
            ifindex: self.ifindex,
            time: self.time,
        }
    }
}

/// What a packet reads of the frame of a number; past the last it is no frame.
pub fn source_at(frames: &[Arrived], at: usize) -> Source<'_>
    ensures { arrival_of result ≡ get_or frames.now at no_frame }
{
    if at < frames.len() {
        frames[at].source()
    } else {
        Source {
            frame: &[],
            ifindex: 0,
            time: 0,
        }
    }
}

/// Writes bytes over those of a buffer from a place on.
fn overwrite(buffer: &mut [u8], at: usize, bytes: &[u8])
    requires { at + length bytes.now ≤ length buffer.old }
    ensures { buffer.new ≡ take at buffer.old ++ bytes.now ++ drop (at + length bytes.now) buffer.old }
{
    buffer[at..at + bytes.len()].copy_from_slice(bytes);
}

/// The bytes of a word, the lowest first.
fn bytes_of_word(word: u64) -> [u8; 8]
    ensures { result ≡ low_bytes 8 word }
{
    let mut bytes = [0; 8];
    LittleEndian::write_u64(&mut bytes, word);
    bytes
}

/// Writes the bytes of a beat from a place on, and answers the place after them.
fn write_beat(buffer: &mut [u8], at: usize, beat: &Beat) -> usize
    requires { at + length (bytes_of_beat beat.now) ≤ length buffer.old }
    ensures end { result ≡ at + length (bytes_of_beat beat.now) }
    ensures few { result ≤ at + 8 }
    ensures prefix { take result buffer.new ≡ take at buffer.old ++ bytes_of_beat beat.now }
    ensures count { length buffer.new ≡ length buffer.old }
{
    let bytes = bytes_of_word(beat.word);
    let count = (beat.bytes as usize).min(8);
    overwrite(buffer, at, &bytes[..count]);
    at + count
}
