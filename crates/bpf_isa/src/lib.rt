//! The instructions of BPF: bytes to instructions and back, by the table of RFC 9669.
//!
//! A *unit* is 8 bytes: an opcode, a byte of two registers (the destination in its low half), an
//! offset of 16 bits and an immediate number of 32, lowest byte first. An instruction has one
//! unit, but for the load of a number of 64 bits, which has two. A *place* is the number of a unit
//! in a text, from 0.
//!
//! A register above 10 is illegal, and so is a field that an instruction does not use and that is
//! not zero.
#![tactic(auto)]

mod decode;
mod encode;
mod fields;
mod helper;
mod instruction;
mod opcode;
mod operation;
mod unit;

pub use decode::{DecodeError, decode_all, decode_one};
pub use encode::encode_one;
pub use helper::Helper;
pub use instruction::{BadInsn, Insn};
pub use operation::{AluCode, JumpCode, Op, Size, Src, Width};

// Crates above name these through this one.
pub use bits_core;
