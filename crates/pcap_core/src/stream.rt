//! A capture that is read record by record, by one who holds no more of it than a record.

ghost use Rattle.std.specs.Prelude.{◌≡◌, ◌<◌, ◌≤◌, ◌^◌, ℕ, List, [], length, take, None, IfOk};
ghost use Rattle.pcap_core.specs.Format.{IsLength};
ghost use Rattle.pcap_core.specs.Reading.{head_at, records_at};
ghost use Rattle.pcap_core.specs.Next.{seen};
ghost use Rattle.pcap_core.specs.Streaming.{Opens, Begins, Completes};
ghost use Rattle.pcap_core.specs.Time.{time_of};

use crate::error::PcapError;
use crate::head::{RecHead, head_at};
use crate::header::header_of;
use crate::order::Order;
use crate::record::Rec;
use crate::time::nanoseconds;
use std::marker::Model;

/// What a capture's header says, by which its records are read. Contracts see the order of bytes in its numbers,
/// and its magic number.
#[derive(Debug, Drop)]
pub struct Stream {
    order: Order,
    magic: u32,
}

impl Model for Stream {
    ghost use Rattle.pcap_core.specs.Streaming.{Opened};

    ghost Value = { Opened };

    ghost view = { λ s. record { order = s.order; magic = s.magic } };
}

impl Stream {
    /// The capture that begins with this header: its first 24 bytes, or all where there are fewer. Else the first
    /// fault of the header.
    pub fn open(header: &[u8]) -> Result<Stream, PcapError>
        ensures content { (bytes : List ℕ) → header.now ≡ take 24 bytes → Opens result bytes }
        // Where nothing is left, no record comes.
        ensures end { IfOk result (λ s. (index at : ℕ) → records_at s.order index at [] ≡ ([], None)) }
    {
        match header_of(header) {
            Ok(order) => Ok(Stream {
                order,
                magic: order.u32_at(header),
            }),
            Err(fault) => Err(fault),
        }
    }

    /// The magic number, in the order of a number: 0xa1b2c3d4 (microseconds) or 0xa1b23c4d (nanoseconds).
    pub fn magic(&self) -> u32
        ensures { result ≡ self.now.magic }
    {
        self.magic
    }

    /// What the numbers say of record `index`, which begins at place `at`: the next 16 bytes, or all where there are
    /// fewer. Else the fault there.
    pub fn head(&self, numbers: &[u8], at: u64, index: u64) -> Result<RecHead, PcapError>
        ensures head { result ≡ head_at self.now.order index at numbers.now }
        ensures length { IfOk result (λ head. IsLength head.length) }
        // With the bytes that follow, it gives what comes.
        ensures comes { (rest : List ℕ) → numbers.now ≡ take 16 rest → 0 < length rest → Begins result self.now.order index at rest }
    {
        head_at(self.order, index, at, numbers)
    }

    /// The record whose numbers say this, with the bytes that follow them: as many as they say, or all where there
    /// are fewer, which is a fault of the record, where it begins.
    pub fn record<'a>(&self, head: &RecHead, at: u64, bytes: &'a [u8]) -> Result<Rec<'a>, PcapError>
        requires { length bytes.now ≤ head.now.length }
        ensures { Completes result head.now at bytes.now }
    {
        if bytes.len() < head.length as usize {
            return Err(PcapError::Short { at });
        }
        Ok(Rec {
            seconds: head.seconds,
            fraction: head.fraction,
            bytes,
        })
    }

    /// When a packet of this capture was captured, in nanoseconds.
    pub fn time(&self, packet: &Rec) -> u64
        ensures time { result ≡ time_of self.now.magic (seen packet.now) }
        ensures range { result < 2 ^ 63 }
    {
        let packet = *packet;
        nanoseconds(self.magic, packet.seconds, packet.fraction)
    }
}
