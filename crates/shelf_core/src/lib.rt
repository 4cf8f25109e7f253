//! What the program reads and writes: a shelf holds bytes by name, a sink takes bytes.
#![tactic(auto)]

mod calls;
mod dir_shelf;
mod entry;
mod faults;
mod feed;
mod fetch;
mod mem_shelf;
mod mem_sink;
mod names;
mod outside;
mod std_sink;

pub use dir_shelf::DirShelf;
pub use feed::Feed;
pub use fetch::{FetchError, fetch_all};
pub use mem_shelf::MemShelf;
pub use mem_sink::MemSink;
pub use outside::{Failed, NoMemory, Shelf, Sink};
pub use std_sink::StdSink;
