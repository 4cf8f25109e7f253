//! Which bytes are an object with an XDP program, and the program with its maps, or the first fault of others.
//! `map_records` has the declaration of a map from what an object says of it.
#![tactic(auto)]

mod choice;
mod code;
mod error;
mod functions;
pub mod laws;
pub mod map_records;
mod maps;
mod numbers;
mod parts;
mod program;
mod read;
mod relocated;
mod relocations;
mod text;
mod units;

pub use choice::Choice;
pub use error::ObjectError;
pub use program::Program;
pub use read::read_object;
pub use units::two_units;
