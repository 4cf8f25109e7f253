//! The whole of what a site reads, in nets.
//! `touch_net` says whether a change touches what a packet read, `mark_net` keeps the marks of that.
#![tactic(auto)]

pub mod accesses;
mod finding;
pub mod looking;
pub mod lookups;
pub mod mark_net;
pub mod pendings;
pub mod sites;
pub mod touch_net;
pub mod updates;

// Crates above name these through this one.
pub use overlay_net::cell_nets;
