//! Builder of the stages of a pipeline and of the parts that show words under pointers.
//! `frame_parts` has the parts of frames, `mark_parts` those of marks.
#![tactic(auto)]

mod first;
pub mod frame_parts;
pub mod laws;
mod lists;
pub mod mark_parts;
mod nets;
pub mod parts;
mod stages;
mod words;
