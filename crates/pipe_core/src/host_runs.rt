//! What the machine of the pipe makes of the clocks in which its host loads maps and reads them back. There is no code but for the laws.

pub mod laws;
