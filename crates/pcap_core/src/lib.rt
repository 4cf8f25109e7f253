//! Capture files of the libpcap format, version 2.4, with link type 1 (Ethernet): a reader that borrows
//! its packets from the file's bytes, and the bytes of a file to be written.
#![tactic(auto)]

mod capture;
mod error;
mod head;
mod header;
mod laws;
mod order;
mod record;
mod stream;
mod time;

pub use capture::Capture;
pub use error::PcapError;
pub use head::RecHead;
pub use header::{MICROSECONDS, NANOSECONDS, write_header};
pub use laws::one_reading;
pub use order::Order;
pub use record::{Rec, write_record};
pub use stream::Stream;
