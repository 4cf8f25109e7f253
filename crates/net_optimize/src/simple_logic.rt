//! Designs whose expressions have fewer operators, since words of nets fit known numbers of bits.

mod facts;
mod lost_sets;
mod simplifying;
mod statements;
mod wires;

pub(crate) use simplifying::simpler;
