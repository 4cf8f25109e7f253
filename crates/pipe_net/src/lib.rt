//! The parts of a pipeline of any program, and that a clock of a design of such parts is a clock of the machine of the pipe.
//! `pipe_frames`, `pipe_marks`, `pipe_turns`, `pipe_maps` and `pipe_places` have the clocks of parts, `pipe_forms` and `pipe_clocks` join them.
#![tactic(auto)]

pub mod parts;
pub mod pipe_clocks;
pub mod pipe_forms;
pub mod pipe_frames;
pub mod pipe_maps;
pub mod pipe_marks;
pub mod pipe_places;
pub mod pipe_turns;
