//! Designs of narrower registers and wires: high bits that are always 0 are left out, and a register of one or two words is one bit.

mod assigning;
mod bounds;
mod choices;
mod choosing;
mod codes;
mod encoding;
mod narrowing;
mod stop;
mod storing;
mod widening;
mod words;
mod zeros;

pub use storing::narrower;
