//! Why there is no design of narrower registers.

use std::alloc::{AllocError, AllocFailed};

/// What stops the narrowing of registers.
#[derive(Clone, Copy, Drop)]
pub(crate) enum Stop {
    /// A register would lose bits or words that are needed.
    Wide,
    NoMemory,
}

impl From<AllocError> for Stop {
    fn from(_: AllocError) -> Stop {
        Stop::NoMemory
    }
}

impl<T: Drop> From<AllocFailed<T>> for Stop {
    fn from(_failed: AllocFailed<T>) -> Stop {
        Stop::NoMemory
    }
}
