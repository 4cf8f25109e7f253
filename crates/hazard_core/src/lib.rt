//! Maps as tables of slots, what a packet reads over its own earlier operations, which reads a change touches, and commits.
//! `held_rows` and `table_laws` have laws of rows and tables, `table_maps` the maps that tables stand for.
#![tactic(auto)]

pub mod access;
pub mod change;
pub mod commit;
pub mod held_rows;
pub mod host;
pub mod laws;
pub mod marks;
pub mod operation;
pub mod overlay;
pub mod pending;
pub mod pointer;
pub mod rows;
pub mod site;
pub mod slot;
pub mod stage_values;
pub mod table_laws;
pub mod table_maps;
pub mod tables;

// Crates above name these through this one.
pub use cell_core;
