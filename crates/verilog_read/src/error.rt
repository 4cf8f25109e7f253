//! Why nothing was read.

ghost use Rattle.std.specs.Prelude.{◌≡◌};
ghost use Rattle.verilog_read.specs.declared.error.ReadError.TheVariants.{NoMemory};

use std::alloc::{AllocError, AllocFailed};
use thiserror::Error;

/// The first error of a text. A place is that of the first byte of a token, or the length of the text at its end.
#[derive(Clone, Copy, PartialEq, Eq, Debug, Error)]
pub enum ReadError {
    /// No token begins there. The whole text is looked through for this first.
    #[error("no token at byte {at}")]
    Lex { at: usize },
    /// A token that the grammar does not have there.
    #[error("syntax at byte {at}")]
    Syntax { at: usize },
    /// A name without an earlier declaration of the sort that is needed.
    #[error("unknown name at byte {at}")]
    Unknown { at: usize },
    /// A second declaration, a second assign, or a second always block for a target.
    #[error("second declaration or driver at byte {at}")]
    Twice { at: usize },
    /// A width, a range or a bound, at the token that ends its phrase.
    #[error("width at byte {at}")]
    Width { at: usize },
    /// An item after one of a later section.
    #[error("item out of order at byte {at}")]
    Order { at: usize },
    /// The first port, by its number from 0, that is not as every design has it, or else the first output without an assign.
    #[error("port {port}")]
    Ports { port: u32 },
    /// No memory is left, or the number of a net would not fit 32 bits: a text with so many names takes more.
    #[error("out of memory")]
    NoMemory,
}

impl From<AllocError> for ReadError {
    ghost from_gives = { λ _ e. e ≡ NoMemory };

    fn from(_error: AllocError) -> ReadError {
        ReadError::NoMemory
    }
}

impl<T: Drop> From<AllocFailed<T>> for ReadError {
    ghost from_gives = { λ _ e. e ≡ NoMemory };

    fn from(_failed: AllocFailed<T>) -> ReadError {
        ReadError::NoMemory
    }
}
