//! What the lines of a case say of bytes, maps and its program.

pub(crate) mod bytes;
pub(crate) mod code;
pub(crate) mod numbers;
pub(crate) mod refusal;
pub(crate) mod tables;
