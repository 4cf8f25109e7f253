//! Programs are prepared for a pipeline: the cells and the plan of a program say all that the parts of its pipeline ask. There is no code.

pub mod laws;
