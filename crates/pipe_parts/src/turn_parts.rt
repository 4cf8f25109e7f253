//! The parts of a pipeline that say which operation of the packet at the commit place commits, on which map and at which slot, and what the host may do:
//! [`parts::turn_parts`].

mod action;
mod commits;
mod host;
pub mod laws;
pub mod parts;
mod records;
mod sites;
mod targets;
