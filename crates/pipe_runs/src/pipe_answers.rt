//! A pipeline is right in every clock: what holds of all clocks of its machine while maps are loaded, and while a host only reads. There is no code but for the laws.

pub mod laws;
