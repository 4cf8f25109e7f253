//! Cases of texts: first errors, designs, what is written of them, and clocks.
//!
//! The words of the program are names of files of cases, which it reads in order. Each row is a verb, a space, and what the
//! verb takes; what a verb prints has the row in it. A text in a row is written as it is, but for `\n`, a line feed, and `\x`
//! with two digits, any byte. An error of a text is printed as its code, V1 to V6, and the text with a `#` at its place; one
//! that is not in the row's part of the text has its line and its column instead, as `V5:24:24`, and V7 the number of its port.
//!
//! Rows that print nothing but what they say:
//!
//!     == TITLE            what the next rows show
//!     # NOTE              nothing, as an empty row
//!
//! The text under way:
//!
//!     text                begins it anew
//!     | LINE              adds a line
//!     times N TEXT        adds a text N times
//!     put NAME            adds a text that is kept
//!     keep NAME           keeps it by this name
//!     replace OLD => NEW  puts NEW in place of the first OLD in it
//!
//! What is said of a text, `design` or its first error:
//!
//!     whole TEXT          of this text
//!     items TEXT          of what is kept as `before`, this, and what is kept as `behind`
//!     front TEXT          of what is kept as `before` and this
//!     change OLD => NEW   of the text under way with NEW in place of the first OLD
//!
//! The design of the text under way:
//!
//!     written NAME        whether what is written of it is what is kept by this name, and that is written so again
//!     open                opens it, with its first values
//!     clock N N ..        a clock of what is open, at twelve inputs in decimal, in the order of the ports, `clk` apart: the
//!                         outputs in hexadecimal, in the order of the ports, or `x` and the wire whose divisor is zero
#![tactic(auto)]

mod clocks;
mod designs;
mod escapes;
mod faults;
mod suite;

use crate::suite::Suite;
use anyhow::{Context, Result};
use std::{env, fs};

fn main(rt: HostRuntime) -> Result<()> {
    let mut suite = Suite::new(rt.alloc());
    for name in env::args(&rt)?.skip(1) {
        let cases = fs::read_to_string(&rt, name.as_str()).context("reading the cases")?;
        for row in cases.lines() {
            suite
                .take(&rt, row)
                .context(format_args!("at the row {row:?}"))?;
        }
    }
    Ok(())
}
