//! The cells, pointers and sites of instructions that operate on a map.
//!
//! A site names its map, its guard, and the cells of its key and its operands. Keys and values are words of eight bytes, joined from the bytes
//! of the packet or of the stack that an argument leads to.
#![tactic(auto)]

pub mod access;
pub mod atomic;
pub mod change;
mod declared;
pub mod here;
pub mod lookup;
mod numbers;
mod sizes;
pub mod words;
