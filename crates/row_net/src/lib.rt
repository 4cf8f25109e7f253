//! The cells of a stage as wires.
//! `place_net` has the cells that come from outside, the registers that stand for cells, and the exit, `site_place` a stage.
#![tactic(auto)]

pub mod laws;
pub mod lists;
pub mod needed;
pub mod place_net;
pub mod row;
pub mod site_place;
pub mod table;
