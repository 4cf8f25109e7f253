//! Why bytes are no capture.

use thiserror::Error;

/// What is wrong with a capture: of the header's faults the first in this order, and then that of the first
/// record that is not whole.
#[derive(Clone, Copy, Debug, PartialEq, Eq, Error)]
pub enum PcapError {
    /// The header or a record is cut off; `at` is the place where it begins.
    #[error("cut off in what begins at {at}")]
    Short { at: u64 },
    /// The magic number is neither that of microseconds nor that of nanoseconds, in either order of bytes.
    #[error("not a capture")]
    Magic,
    /// The version is not 2.4.
    #[error("not version 2.4")]
    Version,
    /// The link type is `n`, and not 1.
    #[error("link type {n}")]
    Link { n: u32 },
    /// Record `index`, from 0, has a captured length of 0 or above the bound on frames.
    #[error("record {index} has {length} bytes")]
    Frame { index: u64, length: u32 },
}
