//! Why a program has no pipeline plan.

ghost use Rattle.std.specs.Prelude.{◌≡◌};
ghost use Rattle.pipe_parts.specs.declared.pipe_draft.error.PipelinePlanError.TheVariants.{NoMemory};

use std::alloc::{AllocError, AllocFailed};
use thiserror::Error;

/// Why a program has no pipeline plan.
#[derive(Clone, Copy, PartialEq, Eq, Debug, Error)]
pub enum PipelinePlanError {
    /// There are more sites than the numbers of operations have room for.
    #[error("more than 65,536 operations on maps")]
    TooManySites,
    /// A number that is not 0 stands past the first row, where packets do not hold it from the first place on. Programs whose cells are made by `to_cells`
    /// are not known to have one.
    #[error("a constant past the first stage")]
    LateNumber,
    /// No memory is left.
    #[error("out of memory")]
    NoMemory,
}

impl From<AllocError> for PipelinePlanError {
    ghost from_gives = { λ _ e. e ≡ NoMemory };

    fn from(_error: AllocError) -> PipelinePlanError {
        PipelinePlanError::NoMemory
    }
}

impl<T: Drop> From<AllocFailed<T>> for PipelinePlanError {
    ghost from_gives = { λ _ e. e ≡ NoMemory };

    fn from(_failed: AllocFailed<T>) -> PipelinePlanError {
        PipelinePlanError::NoMemory
    }
}
