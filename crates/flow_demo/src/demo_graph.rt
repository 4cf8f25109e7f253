//! The graph of the program of `flow_demo`: the program is accepted, and how large its pipeline is.

pub mod laws;
