//! The control part of a pipeline: which frames are inside, where they stand in a ring of slots, and which places hold a packet.
//!
//! Frames are counted in four numbers: those that are gathered, those that entered the pipeline, those that are answered, and
//! those whose answer is given. Each number is kept as the slot of its frame and the parity of its lap, so no counter is wider
//! than a slot.

pub mod control;
pub mod names;
pub mod shape;
