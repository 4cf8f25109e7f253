// Why words are not read.

ghost use Rattle.std.specs.Prelude.{◌≡◌, ◌↔◌};

use clap::error::ErrorKind;
use std::alloc::AllocError;

/// Why nothing is read from words.
#[derive(Clone, Copy, PartialEq, Eq, Debug)]
pub enum WordsError {
    /// They ask for nothing.
    Usage,
    NoMemory,
}

impl From<AllocError> for WordsError {
    ghost use Rattle.std.specs.Prelude.{◌≡◌};
    ghost use Rattle.command_line.specs.declared.error.WordsError.TheVariants.{NoMemory};

    ghost from_gives = { λ _ e. e ≡ NoMemory };

    fn from(_: AllocError) -> WordsError {
        WordsError::NoMemory
    }
}

// What a kind of error is to a caller: each but want of memory is that the words ask for nothing, a request for help too.
pub(crate) fn error_of(kind: ErrorKind) -> WordsError
    ensures { (result ≡ WordsError.NoMemory) ↔ (kind ≡ ErrorKind.OutOfMemory) }
{
    match kind {
        ErrorKind::OutOfMemory => WordsError::NoMemory,
        _ => WordsError::Usage,
    }
}
