// Why a program is refused.

ghost use Rattle.std.specs.Prelude.{◌≡◌};
ghost use Rattle.xdp_state.specs.Reasons.{reason_number};

use thiserror::Error;

/// Why a program is no hardware, in the order of their numbers, 1 to 15.
#[derive(Copy, Clone, Debug, PartialEq, Eq, Error)]
pub enum Why {
    #[error("an instruction outside the profile")]
    Instruction,
    #[error("a jump to a place where no instruction begins")]
    Jump,
    /// With the number of the helper.
    #[error("a helper that is not known: {0}")]
    Helper(i64),
    #[error("a loop that is too long, or not nested")]
    Loop,
    #[error("a register that holds nothing is read")]
    Unset,
    #[error("a value that differs between the ways to it is read")]
    Mixed,
    #[error("bytes of the packet that are not checked")]
    Unchecked,
    #[error("a place that is no multiple of the access")]
    Misaligned,
    #[error("a place outside its region")]
    Offset,
    #[error("a value that is used as its kind does not permit")]
    Use,
    #[error("the answer of a lookup that may be null")]
    Null,
    #[error("an entry that may be gone")]
    Stale,
    #[error("an argument of a helper")]
    Argument,
    #[error("a program that is too long")]
    Size,
    #[error("too many stages")]
    Stages,
}

impl Why {
    /// The number of the reason, 1 to 15.
    pub fn number(self) -> u8
        ensures { result ≡ reason_number self }
    {
        match self {
            Why::Instruction => 1,
            Why::Jump => 2,
            Why::Helper(_) => 3,
            Why::Loop => 4,
            Why::Unset => 5,
            Why::Mixed => 6,
            Why::Unchecked => 7,
            Why::Misaligned => 8,
            Why::Offset => 9,
            Why::Use => 10,
            Why::Null => 11,
            Why::Stale => 12,
            Why::Argument => 13,
            Why::Size => 14,
            Why::Stages => 15,
        }
    }
}

/// The most stages of a program: one with more is refused by `Stages`.
pub const MOST_STAGES: u32 = 256;

/// The first refusal of a program: a place, in units, and the reason.
#[derive(Copy, Clone, Debug, PartialEq, Eq, Error)]
#[error("refused at {at}: {why}")]
pub struct Refusal {
    pub at: u32,
    pub why: Why,
}

/// Why there is no hardware for a program.
#[derive(Copy, Clone, Debug, PartialEq, Eq, Error)]
pub enum BuildError {
    #[error("{0}")]
    Refused(Refusal),
    #[error("no memory")]
    NoMemory,
}
