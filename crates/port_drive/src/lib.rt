//! Drives the ports of a design: maps in, frames in and answers out, maps out.
//! `answer_counts` counts answers and entries.
#![tactic(auto)]

mod advance;
pub mod answer_counts;
mod answer_room;
mod answers;
mod driver;
mod driving;
mod dumping;
mod frame_room;
mod host_clock;
mod loading;
mod report;
mod turn;

pub use answer_room::AnswerRoom;
pub use answers::Answers;
pub use driver::Driver;
pub use driving::drive;
pub use dumping::dump;
pub use loading::load;
pub use report::{Drive, DriveError};
pub use turn::Turn;
