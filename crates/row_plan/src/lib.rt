//! The rows of a program's values: in which stage of the pipeline each is made, and up to which it is kept.
#![tactic(auto)]

mod keeping;
mod row_plan;
mod rows;

pub use row_plan::{RowPlan, plan};

// Crates above name these through this one.
pub use cell_core;
