//! The parts of a pipeline whose packets operate on maps, all together: that what they read of one another is declared, and that the design which is linked
//! of them is in order, well typed and spelled.

pub mod laws;
