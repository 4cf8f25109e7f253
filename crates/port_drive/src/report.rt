//! What a drive reports.

use clock_sim::XValue;
use thiserror::Error;

/// What a drive took.
#[derive(Clone, Copy, PartialEq, Eq, Debug)]
pub struct Drive {
    pub clocks: u64,
    /// The clocks in which the design sent a packet back.
    pub reloads: u64,
}

/// Why a drive did not end with its last answer.
#[derive(Clone, Copy, PartialEq, Eq, Debug, Error)]
pub enum DriveError {
    /// A clock stopped.
    #[error(transparent)]
    X(XValue),
    /// The clocks were used up, with fewer answers than frames.
    #[error("{answers} answers to {frames} frames in {clocks} clocks")]
    Late {
        answers: u64,
        frames: u64,
        clocks: u64,
    },
    #[error("out of memory")]
    NoMemory,
}
