//! The part of a pipeline that gathers frames, and the one that shows what is kept of a frame.
//! `scatter_net` has the part that shows answers as beats.
#![tactic(auto)]

mod gathering;
mod held;
pub mod nets;
mod packet_sources;
pub mod scatter_net;

pub use gathering::gather;
pub use held::Kept;
pub use packet_sources::{kept_name, length_name, sources};
