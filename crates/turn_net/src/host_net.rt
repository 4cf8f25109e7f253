//! The parts of a pipeline that are for the host: what it may do in a clock, and what it reads.
//!
//! The host reads a word of a map in any clock in which it is heard. It writes one too, where the map lets it: any word while no frame is inside, and a value of
//! an entry while packets are. It has to wait while the packet at the commit place is amid its operations, since such a packet is not sent back.

pub mod host;
pub mod laws;
pub mod names;
mod trees;
pub mod value;
