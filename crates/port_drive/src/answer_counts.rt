//! What is counted of a run: answers by their verdicts, the bytes of their frames, and the entries of a hash.

mod answers;
mod entries;

pub use answers::{byte_count, other_count, verdict_count};
pub use entries::entry_count;
