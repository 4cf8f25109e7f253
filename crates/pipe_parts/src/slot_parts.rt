//! The parts of a pipeline that show the slots of its maps, and what stands for the maps where operations of packets are looked at: [`slots::slots_parts`] and
//! [`nets::map_nets`].

pub mod laws;
pub mod nets;
pub mod slots;
