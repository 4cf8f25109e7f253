//! Covers: a program that does what another one does, checked by a list of origins.
//!
//! A program b, with its graph, and a place of a program a for each place of b: where [`covers`] holds, each packet has the same run of both,
//! whatever a is. How b was found does not matter.
#![tactic(auto)]

mod covering;
pub mod laws;
mod settling;
mod telling;

pub use covering::covers;
pub use settling::{side, sure_side};
pub use telling::equal_side;
