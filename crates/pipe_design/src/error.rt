//! Why a program has no pipeline.

ghost use Rattle.std.specs.Prelude.{◌≡◌};
ghost use Rattle.pipe_design.specs.declared.error.PipelineError.TheVariants.{NoMemory};
ghost use Rattle.pipe_design.specs.Errors.{of_pipeline_plan, of_link};

use block_core::LinkError;
use pipe_parts::pipe_draft::PipelinePlanError;
use std::alloc::{AllocError, AllocFailed};
use thiserror::Error;

/// Why a program has no pipeline.
#[derive(Clone, Copy, PartialEq, Eq, Debug, Error)]
pub enum PipelineError {
    /// There are more sites than the numbers of operations have room for.
    #[error("more than 65,536 operations on maps")]
    TooManySites,
    /// A number that is not 0 stands past the first row, where packets do not hold it from the first place on.
    #[error("a constant past the first stage")]
    LateNumber,
    /// There are 2^32 nets of one sort or more.
    #[error("more than 4,294,967,295 nets of one sort")]
    TooMany,
    /// No memory is left.
    #[error("out of memory")]
    NoMemory,
}

impl From<AllocError> for PipelineError {
    ghost from_gives = { λ _ e. e ≡ NoMemory };

    fn from(_error: AllocError) -> PipelineError {
        PipelineError::NoMemory
    }
}

impl<T: Drop> From<AllocFailed<T>> for PipelineError {
    ghost from_gives = { λ _ e. e ≡ NoMemory };

    fn from(_failed: AllocFailed<T>) -> PipelineError {
        PipelineError::NoMemory
    }
}

impl From<PipelinePlanError> for PipelineError {
    ghost from_gives = { λ d e. e ≡ of_pipeline_plan d };

    fn from(error: PipelinePlanError) -> PipelineError {
        match error {
            PipelinePlanError::TooManySites => PipelineError::TooManySites,
            PipelinePlanError::LateNumber => PipelineError::LateNumber,
            PipelinePlanError::NoMemory => PipelineError::NoMemory,
        }
    }
}

impl From<LinkError> for PipelineError {
    ghost from_gives = { λ l e. e ≡ of_link l };

    fn from(error: LinkError) -> PipelineError {
        match error {
            LinkError::TooMany => PipelineError::TooMany,
            LinkError::NoMemory => PipelineError::NoMemory,
        }
    }
}
