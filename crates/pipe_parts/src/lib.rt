//! Builders of the parts of a pipeline.
//! `pipe_draft` has what is worked out of a program beforehand, `slot_parts` and `turn_parts` the parts of slots and of operations that commit.
#![tactic(auto)]

pub mod pipe_draft;
pub mod slot_parts;
pub mod turn_parts;
