//! The cells of instructions that neither jump nor end, and operate on no map: arithmetic, byte orders, constants, loads from the packet, the
//! stack and the context, stores into the packet and the stack, and the helpers for the time and for redirects.
//!
//! Each `carry_` function adds the cells of one instruction and changes what is held: its contract, `Carries`, says that these cells hold the
//! machine after the instruction wherever the old ones held the one before. A value whose kind says what it is has no cell.
//! A pointer into a map that is held after the instruction was held before it.
#![tactic(auto)]

pub mod computing;
pub mod helpers;
pub mod loading;
pub mod moving;
pub mod plain;
pub mod registers;
mod sizes;
pub mod storing;
