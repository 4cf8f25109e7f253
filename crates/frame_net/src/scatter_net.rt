//! The part of a pipeline that shows answers as beats, as a block: [`scatter`].

mod names;
mod scattering;

pub use names::{bytes_name, data_name, last_name, target_name, verdict_name};
pub use scattering::scatter;
