//! The text of the maps of an XDP program: which bytes say what maps hold, and the bytes that say what
//! these maps hold.
//!
//! A line is `NAME KEY VALUE` with one space between, key and value in hexadecimal digits of either case,
//! and ends with a line feed, which the last line may lack. What no line lists is absent from a hash, and
//! zeros in an array, whose keys are its indexes in four bytes, the low one first.
#![tactic(auto)]

mod decls;
mod digits;
mod error;
mod fields;
mod laws;
mod listed;
mod read;
mod write;

pub use error::MapsError;
pub use laws::{has_one_meaning, written_is_read};
pub use read::read_maps_text;
pub use write::write_maps_text;
