//! Expressions of designs: whether two are the same, copies of them, and numbers by which they are told apart.

pub mod copying;
pub mod equal;
pub mod mark;
