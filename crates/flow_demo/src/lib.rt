//! An object and a capture that are made from a number: a program that counts packets by flow, and packets for it.
//! `demo_graph` says that this program is accepted. The generator of its numbers draws for others, too.
#![tactic(auto)]

mod capture;
mod demo;
pub mod demo_graph;
mod draws;
mod frame;
mod listing;
mod object;

pub use demo::{Demo, make};
pub use draws::first_draws;
