//! A capture, packet by packet.

ghost use Rattle.std.specs.Prelude.{◌≡◌, ◌<◌, ◌^◌, length, MatchResult, IfOk, Ok};
ghost use Rattle.beat_core.specs.Laws.{IsPacket};
ghost use Rattle.pcap_core.specs.Format.{IsLength, IsContent, IsHeaderFault};
ghost use Rattle.pcap_core.specs.Reading.{content_of};
ghost use Rattle.pcap_core.specs.Next.{GivesNext, GivesFrame, seen};
ghost use Rattle.pcap_core.specs.Time.{time_of, timed_of};

use crate::error::PcapError;
use crate::head::NUMBERS_BYTES;
use crate::header::{HEADER_BYTES, header_of};
use crate::order::Order;
use crate::record::{Rec, record_at};
use crate::time::nanoseconds;
use beat_core::{Frame, Timed};
use std::alloc::{AllocError, Global};
use std::marker::Model;

/// A capture that is read packet by packet, out of its bytes. Contracts see its magic number, the packets
/// to come, and the fault after them.
#[derive(Debug, Drop)]
pub struct Capture<'a> {
    bytes: &'a [u8],
    order: Order,
    magic: u32,
    at: usize,
    index: usize,
}

impl<'a> Model for Capture<'a> {
    ghost use Rattle.std.specs.Prelude.{◌≤◌, length, drop};
    ghost use Rattle.beat_core.specs.Laws.{IsPacket};
    ghost use Rattle.pcap_core.specs.Format.{Content};
    ghost use Rattle.pcap_core.specs.Reading.{content_from, records_at};

    ghost Value = { Content };

    ghost view = { λ c. content_from c.magic (records_at c.order c.index c.at (drop c.at c.bytes.now)) };

    ghost invariant = { λ c. (c.at ≤ length c.bytes.now) × (c.index ≤ c.at) };
}

impl<'a> Capture<'a> {
    /// The capture whose file has these bytes, or the first fault of its header.
    pub fn open(bytes: &'a [u8]) -> Result<Capture<'a>, PcapError>
        ensures content { result ≡ content_of bytes.now }
        ensures format { MatchResult result (IsContent bytes.now) (IsHeaderFault bytes.now) }
    {
        match header_of(bytes) {
            Ok(order) => Ok(Capture {
                bytes,
                order,
                magic: order.u32_at(bytes),
                at: HEADER_BYTES,
                index: 0,
            }),
            Err(fault) => Err(fault),
        }
    }

    /// The magic number, in the order of a number: 0xa1b2c3d4 (microseconds) or 0xa1b23c4d (nanoseconds).
    pub fn magic(&self) -> u32
        ensures { result ≡ self.now.magic }
    {
        self.magic
    }

    /// When a packet of this capture was captured, in nanoseconds.
    pub fn time(&self, packet: &Rec) -> u64
        ensures time { result ≡ time_of self.now.magic (seen packet.now) }
        ensures range { result < 2 ^ 63 }
    {
        let packet = *packet;
        nanoseconds(self.magic, packet.seconds, packet.fraction)
    }

    /// A packet of this capture as a frame with its time.
    pub fn timed(&self, alloc: Global, packet: &Rec) -> Result<Timed, AllocError>
        requires { IsLength (length packet.now.bytes.now) }
        ensures timed { IfOk result (λ timed. timed ≡ timed_of self.now.magic (seen packet.now)) }
        ensures frame { IfOk result IsPacket }
        ensures range { IfOk result (λ timed. timed.time < 2 ^ 63) }
    {
        let frame = Frame::of(alloc, packet.bytes)?;
        // A frame has bytes.
        prove!(!frame.bytes().is_empty());
        let time = self.time(packet);
        Ok(Timed { frame, time })
    }

    /// The next packet, or none at the end. A fault comes again at each further call.
    pub fn next(&mut self) -> Result<Option<Rec<'a>>, PcapError>
        ensures next { GivesNext result self.old self.new }
        // What is given has the length of a frame.
        ensures frame { GivesFrame result }
    {
        let rest = &self.bytes[self.at..];
        match record_at(self.order, self.index as u64, self.at as u64, rest) {
            Ok(Some(record)) => {
                self.at += NUMBERS_BYTES + record.bytes.len();
                self.index += 1;
                Ok(Some(record))
            }
            Ok(None) => Ok(None),
            Err(error) => Err(error),
        }
    }
}
