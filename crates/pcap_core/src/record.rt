//! A record of a capture.

ghost use Rattle.std.specs.Prelude.{◌≡◌, ◌+◌, ◌<◌, ◌≤◌, ◌^◌, ◌++◌, [], length, drop, vec_capacity, OnOk, OnErr, Ok, Err};
ghost use Rattle.pcap_core.specs.Format.{record_bytes};
ghost use Rattle.pcap_core.specs.Number.{spelled};
ghost use Rattle.pcap_core.specs.Reading.{record_at};
ghost use Rattle.pcap_core.specs.Next.{GivesRecord};
ghost use Rattle.pcap_core.specs.declared.order.Order.TheVariants.{Little};

use crate::error::PcapError;
use crate::head::{NUMBERS_BYTES, head_at};
use crate::order::Order;
use byteorder::{ByteOrder, LittleEndian};
use std::alloc::AllocError;

/// A packet of a capture: when it came, and the bytes that were captured of it.
#[derive(Clone, Copy, Debug)]
pub struct Rec<'a> {
    pub seconds: u32,
    /// Microseconds or nanoseconds, as the capture's magic number says.
    pub fraction: u32,
    pub bytes: &'a [u8],
}

/// The record in front of the rest of a capture, if there is one: record `index`, at place `at`.
#[tactic(auto, unfolding(crate::specs::Reading::record_at))]
pub(crate) fn record_at<'a>(
    order: Order,
    index: u64,
    at: u64,
    rest: &'a [u8],
) -> Result<Option<Rec<'a>>, PcapError>
    ensures { GivesRecord result rest.now (record_at order index at rest.now) }
{
    if rest.is_empty() {
        return Ok(None);
    }
    let head = match head_at(order, index, at, rest) {
        Ok(head) => head,
        Err(fault) => return Err(fault),
    };
    let end = NUMBERS_BYTES + head.length as usize;
    if rest.len() < end {
        return Err(PcapError::Short { at });
    }
    Ok(Some(Rec {
        seconds: head.seconds,
        fraction: head.fraction,
        bytes: &rest[NUMBERS_BYTES..end],
    }))
}

/// Makes a buffer hold just the bytes of a record, the lowest byte of a number first. The frame's length
/// stands in it twice. It takes no memory where the buffer has room for it; without memory the buffer is
/// left empty.
pub fn write_record(
    into: &mut Vec<u8>,
    seconds: u32,
    fraction: u32,
    frame: &[u8],
) -> Result<(), AllocError>
    requires { length frame.now < 2 ^ 32 }
    ensures ok { OnOk result (into.new.items ≡ record_bytes Little (record { packet = record { seconds = seconds; fraction = fraction; bytes = frame.now }; original = length frame.now })) }
    ensures err { OnErr result (into.new.items ≡ []) }
    ensures full { OnErr result (vec_capacity into.old < 16 + length frame.now) }
    ensures room { vec_capacity into.old ≤ vec_capacity into.new }
{
    let length = frame.len() as u32;
    into.clear();
    into.reserve(NUMBERS_BYTES + frame.len())?;
    into.extend_from_slice(&numbers_of(seconds, fraction, length))?;
    into.extend_from_slice(frame)
}

/// The four numbers of a record, whose length stands in it twice.
#[tactic(auto, unfolding(crate::specs::Number::spelled))]
fn numbers_of(seconds: u32, fraction: u32, length: u32) -> [u8; 16]
    ensures { result ≡ spelled Little 4 seconds ++ (spelled Little 4 fraction ++ (spelled Little 4 length ++ spelled Little 4 length)) }
{
    let mut numbers = [0; 16];
    LittleEndian::write_u32(&mut numbers[0..4], seconds);
    LittleEndian::write_u32(&mut numbers[4..8], fraction);
    LittleEndian::write_u32(&mut numbers[8..12], length);
    LittleEndian::write_u32(&mut numbers[12..16], length);
    numbers
}
