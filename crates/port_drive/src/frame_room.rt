//! Room for one frame.

ghost use Rattle.std.specs.Prelude.{◌≡◌, ◌+◌, ◌<◌, ◌≤◌, ◌++◌, [], length, take, drop, option_map, slice_get, true, false, IfOk, IfSome};
ghost use Rattle.beat_core.specs.Beats.{first_beat};
ghost use Rattle.beat_core.specs.Ports.{offers_of};
ghost use Rattle.beat_core.specs.declared.frame.TheConstants.{FRAME_LIMIT};
ghost use Rattle.port_drive.specs.Offering.{offered_of};

use beat_core::{Beat, FRAME_LIMIT};
use byteorder::{ByteOrder, LittleEndian};
use std::alloc::{AllocError, Global};
use std::marker::Model;

/// A beat, and what is offered beside it.
#[derive(Clone, Copy)]
pub(crate) struct Offer {
    pub beat: Beat,
    pub ifindex: u32,
    /// Of the packet, in nanoseconds.
    pub time: u64,
}

/// Room for one frame of any length, whose beats are offered one after the other. Contracts see the beats that are left,
/// each with what is offered beside it.
#[derive(Drop)]
pub(crate) struct FrameRoom {
    buffer: Vec<u8>,
    len: usize,
    // Of the first beat that is left.
    at: usize,
    ifindex: u32,
    time: u64,
}

impl Model for FrameRoom {
    ghost use Rattle.std.specs.Prelude.{◌≡◌, ◌≤◌, List, length, take, drop, map};
    ghost use Rattle.beat_core.specs.declared.frame.TheConstants.{FRAME_LIMIT};
    ghost use Rattle.beat_core.specs.Beats.{beats_of};
    ghost use Rattle.beat_core.specs.Ports.{Offered, offered};

    ghost Value = { List Offered };

    ghost view = { λ r. map (offered r.ifindex r.time) (beats_of (drop r.at (take r.len r.buffer.items))) };

    ghost invariant = { λ r. (r.at ≤ r.len) × (r.len ≤ FRAME_LIMIT) × (length r.buffer.items ≡ FRAME_LIMIT) };
}

impl FrameRoom {
    /// No beats are left.
    pub(crate) fn new(alloc: Global) -> Result<FrameRoom, AllocError>
        ensures { IfOk result (λ room. room ≡ []) }
    {
        Ok(FrameRoom {
            buffer: zeros(alloc)?,
            len: 0,
            at: 0,
            ifindex: 0,
            time: 0,
        })
    }

    /// All beats of a frame are left, to be offered under an interface number and a time. It takes no memory.
    pub(crate) fn set(&mut self, ifindex: u32, time: u64, frame: &[u8])
        requires { length frame.now ≤ FRAME_LIMIT }
        ensures { self.new ≡ offers_of ifindex (record { frame = frame.now; time = time }) }
    {
        overwrite(&mut self.buffer, 0, frame);
        self.len = frame.len();
        self.at = 0;
        self.ifindex = ifindex;
        self.time = time;
    }

    /// Whether no beat is left.
    pub(crate) fn is_over(&self) -> bool
        ensures over { result ≡ true → self.now ≡ [] }
        ensures left { result ≡ false → self.now ≡ [] → ⊥ }
    {
        self.at == self.len
    }

    /// The first beat, if one is left.
    pub(crate) fn first(&self) -> Option<Offer>
        ensures first { option_map offered_of result ≡ slice_get self.now 0 }
        ensures small { IfSome result (λ o. o.beat.bytes ≤ 8) }
    {
        if self.at == self.len {
            return None;
        }
        let beat = first_beat(&self.buffer[self.at..self.len]);
        Some(Offer {
            beat,
            ifindex: self.ifindex,
            time: self.time,
        })
    }

    /// The first beat, if one is left, has gone over.
    pub(crate) fn take(&mut self)
        ensures { self.new ≡ drop 1 self.old }
    {
        self.at += (self.len - self.at).min(8);
    }
}

fn zeros(alloc: Global) -> Result<Vec<u8>, AllocError>
    ensures { IfOk result (λ v. length v.items ≡ FRAME_LIMIT) }
{
    vec![in alloc; 0; FRAME_LIMIT]
}

// Writes bytes over those of a buffer from a place on.
fn overwrite(buffer: &mut [u8], at: usize, bytes: &[u8])
    requires { at + length bytes.now ≤ length buffer.old }
    ensures { buffer.new ≡ take at buffer.old ++ bytes.now ++ drop (at + length bytes.now) buffer.old }
{
    buffer[at..at + bytes.len()].copy_from_slice(bytes);
}

// The beat of the first bytes of what is left of a frame.
fn first_beat(rest: &[u8]) -> Beat
    requires { 0 < length rest.now }
    ensures { result ≡ first_beat rest.now }
{
    let count = rest.len().min(8);
    Beat {
        word: LittleEndian::read_uint(rest, count),
        bytes: count as u8,
        last: rest.len() <= 8,
    }
}
