//! Why bytes are no text of maps.

ghost use Rattle.std.specs.Prelude.{◌≡◌};
ghost use Rattle.maps_text.specs.declared.error.MapsError.TheVariants.{NoMemory};

use std::alloc::AllocError;
use thiserror::Error;

/// What is wrong with the first bad line, `n` from 1: the first of these that it fails, in this order. Or
/// memory was wanted, which may come at any line.
#[derive(Clone, Copy, Debug, PartialEq, Eq, Error)]
pub enum MapsError {
    /// It is not three fields with one space between, each with some bytes, the last two an even number of
    /// hexadecimal digits.
    #[error("line {n} is no name, key and value")]
    Line { n: u64 },
    /// There is no map of its name.
    #[error("line {n} names no map")]
    Unknown { n: u64 },
    /// Its key or its value has not the length that the map declares, or its index is not below the
    /// capacity of the array.
    #[error("line {n} has a key or a value that the map does not have")]
    Length { n: u64 },
    /// A line before has its map and key.
    #[error("line {n} lists a key again")]
    Twice { n: u64 },
    /// Its map is a hash, and the lines before fill its capacity.
    #[error("line {n} lists more keys than the hash has room for")]
    Full { n: u64 },
    #[error("out of memory")]
    NoMemory,
}

impl From<AllocError> for MapsError {
    ghost from_gives = { λ _ e. e ≡ NoMemory };

    fn from(_error: AllocError) -> MapsError {
        MapsError::NoMemory
    }
}
