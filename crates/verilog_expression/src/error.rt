//! Why nothing was read.

ghost use Rattle.std.specs.Prelude.{◌≡◌};
ghost use Rattle.verilog_expression.specs.declared.error.PhraseError.TheVariants.{NoMemory};

use crate::fault::Fault;
use std::alloc::{AllocError, AllocFailed};
use thiserror::Error;

/// Why nothing was read.
#[derive(Clone, Copy, PartialEq, Eq, Debug, Error)]
pub enum PhraseError {
    /// The first fault of the tokens.
    #[error("not in the subset")]
    Fault(Fault),
    #[error("out of memory")]
    NoMemory,
}

impl From<AllocError> for PhraseError {
    ghost from_gives = { λ _ e. e ≡ NoMemory };

    fn from(_error: AllocError) -> PhraseError {
        PhraseError::NoMemory
    }
}

impl<T: Drop> From<AllocFailed<T>> for PhraseError {
    ghost from_gives = { λ _ e. e ≡ NoMemory };

    fn from(_failed: AllocFailed<T>) -> PhraseError {
        PhraseError::NoMemory
    }
}
