//! Whether a change of a map touches what a packet read at a site, and whether one of the marks that such changes leave calls for a reload, in nets.

pub mod change;
mod entry;
mod key;
pub mod marks;
pub mod steps;
pub mod touch;
