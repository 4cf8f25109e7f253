//! What comes into a pipe in a clock, and what goes out of it.

use hazard_core::access::Access;
use hazard_core::cell_core::xdp_state::beat_core::Beat;

/// What comes in a clock: a beat that is offered, the interface and the time beside it, whether a beat that is shown is taken, and an
/// access of the host.
#[derive(Copy, Clone, Debug)]
pub struct In {
    pub beat: Option<Beat>,
    pub ifindex: u32,
    /// In nanoseconds.
    pub time: u64,
    pub take: bool,
    pub host: Option<Access>,
}

/// What is shown in a clock.
#[derive(Copy, Clone, Debug)]
pub struct Out {
    /// Whether a beat that is offered goes over.
    pub ready: bool,
    /// The next beat of the oldest answer, with its verdict and target.
    pub beat: Option<Beat>,
    pub verdict: u32,
    pub target: u32,
    /// How many packets are sent back.
    pub reloaded: usize,
    /// Whether the access of the host is done.
    pub host_ready: bool,
    pub host_value: u64,
    /// How many packets have left the commit place, modulo 2^32.
    pub host_passed: u32,
}
