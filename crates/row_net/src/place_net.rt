//! The cells that come from outside, the registers that stand for cells after a stage, and the block that keeps the answers of packets that leave.

mod arriving;
mod leaving;
mod outputs;
mod placing;

pub use arriving::source_cells;
pub use leaving::exit;
pub use outputs::{AnswerByte, Outputs};
pub use placing::take_registers;
