//! The object and the capture of a number.

ghost use Rattle.std.specs.Prelude.{◌≡◌, ◌+◌, ◌*◌, ◌≤◌, length, map, IfOk, Ok};
ghost use Rattle.pcap_core.specs.Format.{capture_bytes};
ghost use Rattle.pcap_core.specs.Reading.{content_of};
ghost use Rattle.flow_demo.specs.Packets.{demo_content, demo_header, demo_packets, record_of};
ghost use Rattle.flow_demo.specs.Program.{IsDemoObject};

use crate::capture::capture_of;
use crate::object::demo_object;
use std::alloc::{AllocError, Global};

/// The bytes of an object and those of a capture.
#[derive(Debug, Drop)]
pub struct Demo {
    pub object: Vec<u8>,
    pub capture: Vec<u8>,
}

/// An object of the program `demo`, and a capture of so many packets for it, which are drawn from a seed.
pub fn make(alloc: Global, seed: u32, packets: u32) -> Result<Demo, AllocError>
    ensures object { IfOk result (λ demo. IsDemoObject demo.object.items) }
    ensures capture { IfOk result (λ demo. demo.capture.items ≡ capture_bytes demo_header (map record_of (demo_packets seed packets))) }
    ensures size { IfOk result (λ demo. length demo.capture.items ≤ 24 + 80 * packets) }
    // So just these packets are read of it.
    ensures packets { IfOk result (λ demo. content_of demo.capture.items ≡ Ok (demo_content seed packets)) }
{
    let object = demo_object(alloc)?;
    let capture = capture_of(alloc, seed, packets)?;
    Ok(Demo { object, capture })
}
