//! The capture.

ghost use Rattle.std.specs.Prelude.{◌≡◌, map, IfOk, OnOk};
ghost use Rattle.pcap_core.specs.Format.{capture_bytes, record_bytes};
ghost use Rattle.pcap_core.specs.declared.order.Order.TheVariants.{Little};
ghost use Rattle.flow_demo.specs.Packets.{demo_header, demo_packets, packet_from, record_of, state_behind};

use crate::draws::Draws;
use crate::frame::draw_bytes;
use pcap_core::{MICROSECONDS, write_header, write_record};
use std::alloc::{AllocError, Global};

/// Makes a buffer hold just the record of the next packet, which comes after so many seconds.
fn put_packet(draws: &mut Draws, seconds: u32, into: &mut Vec<u8>) -> Result<(), AllocError>
    ensures record { OnOk result (into.new.items ≡ record_bytes Little (record_of (packet_from draws.old seconds))) }
    ensures state { draws.new ≡ state_behind draws.old }
{
    let length = 14 + (draws.draw() % 51) as usize;
    let mut buffer = [0; 64];
    let frame = &mut buffer[..length];
    draw_bytes(draws, frame);
    write_record(into, seconds, 0, frame)
}

/// The bytes of the capture of so many packets.
pub(crate) fn capture_of(alloc: Global, seed: u32, packets: u32) -> Result<Vec<u8>, AllocError>
    ensures { IfOk result (λ capture. capture.items ≡ capture_bytes demo_header (map record_of (demo_packets seed packets))) }
{
    let mut draws = Draws::new(seed);
    let mut capture = Vec::new(alloc);
    capture.extend_from_slice(&write_header(MICROSECONDS))?;
    let mut record = Vec::new(alloc);
    for second in 0..packets {
        put_packet(&mut draws, second, &mut record)?;
        capture.extend_from_slice(&record)?;
    }
    Ok(capture)
}
