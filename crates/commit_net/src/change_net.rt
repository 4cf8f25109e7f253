//! What a clock changes in a map, and words under a slot: parts of wires alone. One shows words of a slot whose number stands among its own wires
//! ([`pointed`]), one gives the slot that a clock writes and the key there ([`written`]), and one what the clock changes ([`change`]).

pub mod change;
mod keys;
pub mod pointed;
mod presence;
pub mod written;
