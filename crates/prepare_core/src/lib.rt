//! Objects of refused programs, prepared so that they are accepted.
//!
//! [`prepare`] finds a program that does what a refused one does, writes it as an object, reads this again and checks all that is claimed of
//! it: that it is an object, that its program is accepted, and that each packet has the same run of both. [`count`] is what both checks and
//! reports count of a program.
#![tactic(auto)]

mod counting;
mod preparing;
mod sizes;
mod writing;

pub use counting::{Counted, count};
pub use preparing::{Counts, Prepared, prepare};
