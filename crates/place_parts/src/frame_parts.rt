//! The parts of a pipeline that deal with frames, for what its other parts show: [`parts::frame_parts`].

pub mod blocks;
pub mod layout;
pub mod parts;
