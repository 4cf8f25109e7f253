//! The four numbers in front of a record.

ghost use Rattle.std.specs.Prelude.{◌≡◌, ◌≤◌, IfOk};
ghost use Rattle.pcap_core.specs.Format.{IsLength};
ghost use Rattle.pcap_core.specs.Reading.{head_at};

use crate::error::PcapError;
use crate::order::Order;
use beat_core::FRAME_LIMIT;

/// How many bytes the numbers of a record take.
pub(crate) const NUMBERS_BYTES: usize = 16;

/// What the numbers of a record say: when its packet came, and how many bytes of it follow.
#[derive(Clone, Copy, PartialEq, Eq, Debug)]
pub struct RecHead {
    pub seconds: u32,
    /// Microseconds or nanoseconds, as the capture's magic number says.
    pub fraction: u32,
    /// The captured length.
    pub length: u32,
}

/// The numbers in front of the rest of a capture: those of record `index`, at place `at`.
#[tactic(auto, unfolding(crate::specs::Reading::head_at))]
pub(crate) fn head_at(order: Order, index: u64, at: u64, rest: &[u8]) -> Result<RecHead, PcapError>
    ensures head { result ≡ head_at order index at rest.now }
    ensures length { IfOk result (λ head. IsLength head.length) }
{
    if rest.len() < NUMBERS_BYTES {
        return Err(PcapError::Short { at });
    }
    let length = order.u32_at(&rest[8..]);
    if length < 1 || FRAME_LIMIT < length as usize {
        return Err(PcapError::Frame { index, length });
    }
    Ok(RecHead {
        seconds: order.u32_at(rest),
        fraction: order.u32_at(&rest[4..]),
        length,
    })
}
