//! Why a run over a capture ends early.

use crate::records::CaptureError;
use clock_sim::XValue;
use thiserror::Error;

/// Why a run over a capture ends early.
#[derive(Clone, Copy, PartialEq, Eq, Debug, Error)]
pub enum RunError {
    #[error("{0}")]
    Capture(CaptureError),
    #[error("an answer was not written")]
    Unwritten,
    /// A clock stopped at a net.
    #[error("a divisor is zero")]
    X(XValue),
    /// The clocks were used up, with fewer answers than frames.
    #[error("{answers} of {frames} answers in time")]
    Late { answers: u64, frames: u64 },
    #[error("no memory")]
    NoMemory,
}

impl From<CaptureError> for RunError {
    ghost use Rattle.std.specs.Prelude.{◌≡◌};
    ghost use Rattle.capture_run.specs.declared.error.RunError.TheVariants.{Capture};

    ghost from_gives = { λ c e. e ≡ Capture c };

    fn from(error: CaptureError) -> RunError {
        RunError::Capture(error)
    }
}
