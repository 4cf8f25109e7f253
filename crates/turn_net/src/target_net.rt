//! What the operations at record sites write, and on which map one commits: parts of wires alone.

pub mod commits;
mod free;
pub mod laws;
pub mod targets;
