//! A capture, read record by record, and what is written of it as it is read: by a program that is run over it, and by a design that is
//! driven by it.
#![tactic(auto)]

mod driven;
mod error;
mod line;
mod passing;
mod records;
mod results;
mod sequential;
mod surveying;

pub use driven::drive_capture;
pub use error::RunError;
pub use line::{LINE_LIMIT, push_decimal, verdict_line, write_line};
pub use records::{CAPTURE_LIMIT, CaptureError, Records, Stamp, Survey};
pub use results::{ResultRoom, begin_results, put_answer, put_file};
pub use sequential::run_capture;
