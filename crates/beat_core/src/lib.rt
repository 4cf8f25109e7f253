//! Frames as they go over a bus of eight bytes a clock: the frame itself, the beats that it is cut into,
//! and the two machines that put beats together again and give them out one by one.
#![tactic(auto)]

mod answer;
mod beat;
mod frame;
mod gather;
mod laws;
mod scatter;

pub use answer::{Answer, Bytes};
pub use beat::{Beat, beats_of};
pub use frame::{BEAT_LIMIT, FRAME_LIMIT, Frame, Meta, Timed};
pub use gather::{Gather, frames_of};
pub use laws::{beats_and_frames, frames_in_order, ports};
pub use scatter::Scatter;
