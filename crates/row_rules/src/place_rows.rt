//! The data locations of a node, and what an instruction reads and writes of them.
//!
//! A node's data locations are the registers, the slots of the stack, the first 256 bytes of the packet, the target of a redirect, and for
//! each map the writes that are pending ([`location::Location`]), each with a number of its own. An instruction's result stands in the greatest row of what it reads, and one
//! row later where it takes a stage of its own. Each location has at a node an origin, the node that made its value, with a row.

pub mod calls;
pub mod location;
pub mod origin;
pub mod reading;
pub mod recording;
pub mod span;
pub mod writing;
