//! The sequential machine: what a program does to a packet and to its maps, one instruction after another (RFC 9669,
//! linux/bpf.h, bpf-helpers(7)). It stands here as definitions, and as laws about them.
#![tactic(auto)]

pub mod laws;

// Crates above name these through this one.
pub use bpf_isa;
pub use bpf_isa::bits_core;
pub use xdp_maps;
