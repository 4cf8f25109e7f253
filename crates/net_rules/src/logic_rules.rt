//! Expressions with fewer operators, where the words of nets fit known numbers of bits.

mod choosing;
mod comparing;
mod flags;
mod joining;
mod made;
mod neutral;
mod prefixing;
mod selecting;
mod settling;
mod simplifying;
mod testing;
mod turning;
mod views;

pub use simplifying::simplified;
pub use turning::opposite;
