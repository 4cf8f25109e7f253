//! The parts of a pipeline that keep marks, and those that say which packets must reload.

pub mod laws;
pub mod layout;
pub mod marks;
mod owns;
mod reads;
pub mod reload;
