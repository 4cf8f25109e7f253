//! In which stages of a pipeline the values of a program can stand, read on its graph.
//! `place_rows` has data places and what an instruction reads and writes, `node_rows` the rows of nodes, and how many stages there are.
#![tactic(auto)]

pub mod node_rows;
pub mod place_rows;
