//! When a packet was captured.

ghost use Rattle.std.specs.Prelude.{◌≡◌, ◌<◌, ◌^◌, ◌+◌, ◌*◌};
ghost use Rattle.pcap_core.specs.Time.{unit_of};

use crate::header::NANOSECONDS;

/// The seconds and the fraction of a packet in nanoseconds, under a capture's magic number.
pub(crate) fn nanoseconds(magic: u32, seconds: u32, fraction: u32) -> u64
    ensures time { result ≡ seconds * 1000000000 + fraction * unit_of magic }
    ensures range { result < 2 ^ 63 }
{
    let fraction = if magic == NANOSECONDS {
        fraction as u64
    } else {
        fraction as u64 * 1_000
    };
    seconds as u64 * 1_000_000_000 + fraction
}
