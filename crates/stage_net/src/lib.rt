//! A stage that reads maps, as a block.
//! `site_table` has what stands after a stage.
#![tactic(auto)]

mod earlier;
mod reading;
pub mod reads;
pub mod row;
mod searching;
pub mod site_table;
pub mod stage;
