//! A frame on the wire, and what is known of it beside its bytes.

ghost use Rattle.std.specs.Prelude.{◌≡◌, ◌+◌, ◌<◌, ◌≤◌, ◌++◌, length, take, drop, IfOk};
ghost use Rattle.list_laws.specs.Bytes.{IsBytes};

use std::alloc::{AllocError, Global};
use std::marker::Model;

/// The most bytes that a frame has.
pub const FRAME_LIMIT: usize = 9216;

/// The most beats that a frame has, of eight bytes each.
pub const BEAT_LIMIT: usize = 1152;

/// What comes with a frame.
#[derive(Clone, Copy, Debug, PartialEq, Eq)]
pub struct Meta {
    /// The number of the interface that the frame came in by.
    pub ifindex: u32,
    /// When it was captured, in nanoseconds.
    pub time: u64,
}

/// A frame, and when it was captured.
#[derive(Debug, Drop)]
pub struct Timed {
    pub frame: Frame,
    /// In nanoseconds.
    pub time: u64,
}

/// A frame: 1 to `FRAME_LIMIT` bytes. Contracts see it as the list of its bytes.
#[derive(Debug, Drop)]
pub struct Frame {
    bytes: Vec<u8>,
}

impl Model for Frame {
    ghost use Rattle.std.specs.Prelude.{List, ℕ, ◌≤◌, length};
    ghost use Rattle.beat_core.specs.declared.frame.TheConstants.{FRAME_LIMIT};

    ghost Value = { List ℕ };

    ghost view = { λ f. f.bytes.items };

    ghost invariant = { λ f. (1 ≤ length f.bytes.items) × (length f.bytes.items ≤ FRAME_LIMIT) };
}

impl Frame {
    /// The frame of these bytes.
    pub fn of(alloc: Global, bytes: &[u8]) -> Result<Frame, AllocError>
        requires some { 1 ≤ length bytes.now }
        requires room { length bytes.now ≤ FRAME_LIMIT }
        ensures { IfOk result (λ frame. frame ≡ bytes.now) }
    {
        Ok(Frame {
            bytes: Vec::from_slice(alloc, bytes)?,
        })
    }

    /// Its bytes, in the order of the wire.
    pub fn bytes(&self) -> &[u8]
        ensures bytes { result.now ≡ self.now }
        ensures range { IsBytes self.now }
        ensures some { 1 ≤ length self.now }
        ensures room { length self.now ≤ FRAME_LIMIT }
    {
        let bytes: &[u8] = &self.bytes;
        bytes
    }

    /// How many bytes it has.
    pub fn len(&self) -> usize
        ensures len { result ≡ length self.now }
        ensures some { 1 ≤ result }
        ensures room { result ≤ FRAME_LIMIT }
    {
        self.bytes.len()
    }

    /// Writes bytes over those from a place on. The frame keeps its length.
    pub fn write(&mut self, at: usize, bytes: &[u8])
        requires { at + length bytes.now ≤ length self.old }
        ensures { self.new ≡ take at self.old ++ bytes.now ++ drop (at + length bytes.now) self.old }
    {
        overwrite(&mut self.bytes, at, bytes);
    }
}

/// Writes bytes over those of a buffer from a place on.
pub(crate) fn overwrite(buffer: &mut [u8], at: usize, bytes: &[u8])
    requires { at + length bytes.now ≤ length buffer.old }
    ensures { buffer.new ≡ take at buffer.old ++ bytes.now ++ drop (at + length bytes.now) buffer.old }
{
    buffer[at..at + bytes.len()].copy_from_slice(bytes);
}
