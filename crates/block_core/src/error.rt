//! Why parts are no design.

ghost use Rattle.std.specs.Prelude.{◌≡◌};
ghost use Rattle.block_core.specs.declared.error.LinkError.TheVariants.{NoMemory};

use std::alloc::{AllocError, AllocFailed};
use thiserror::Error;

/// Why parts are no design.
#[derive(Clone, Copy, PartialEq, Eq, Debug, Error)]
pub enum LinkError {
    /// There are 2^32 nets of one sort or more, or one that is read or set would have such a number.
    #[error("more than 4,294,967,295 nets of one sort")]
    TooMany,
    /// No memory is left.
    #[error("out of memory")]
    NoMemory,
}

impl From<AllocError> for LinkError {
    ghost from_gives = { λ _ e. e ≡ NoMemory };

    fn from(_error: AllocError) -> LinkError {
        LinkError::NoMemory
    }
}

impl<T: Drop> From<AllocFailed<T>> for LinkError {
    ghost from_gives = { λ _ e. e ≡ NoMemory };

    fn from(_failed: AllocFailed<T>) -> LinkError {
        LinkError::NoMemory
    }
}
