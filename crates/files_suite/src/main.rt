//! Cases of the program's call, and of the crates below it that know words and shelves.
//!
//! The program is called with the names of files of cases, and takes their lines in order. A line has a verb and the words that
//! follow it, with white space between. One that is empty or begins with `#` says nothing. A line of the first two tables gives
//! nothing; each other line is printed with what it gave after it. NAME is the name of a file, BYTES that of known bytes; N, PLACE
//! and the like are decimal.
//!
//! | Lines that make known bytes, for all lines that follow | |
//! |---|---|
//! | `bytes NAME FORM` | NAME stands for the bytes of the form |
//! | `more FORM` | adds them to the bytes that were named last |
//! | `\| TEXT` | adds the text as it stands, and a line feed |
//!
//! | FORM | its bytes |
//! |---|---|
//! | `text WORD..` | the words with one space between; `\n`, `\r`, `\t` and `\xHH` each stand for one byte |
//! | `hex DIGITS..` | those of the digits |
//! | `of BYTES..` | these, one after the other |
//! | `copies N DIGITS` | those of the digits N times |
//! | `first N BYTES` | the first N of these |
//! | `over PLACE DIGITS BYTES` | these with others in place of those from PLACE on |
//! | `held NAME` | what NAME holds on the shelf |
//! | `object BYTES` | an object with this code, and `prog` as the name of its function |
//! | `demo-object SEED N`, `demo-capture SEED N` | the object and the capture that `flow_demo` makes |
//!
//! | Lines that prepare a case | |
//! |---|---|
//! | `== TITLE` | begins a case, with a new shelf and a new sink in memory; it is printed as it stands |
//! | `hold NAME BYTES` | makes NAME hold these |
//! | `fail read N` | makes read N of the shelf fail, from 1 |
//! | `fail write N LEFT` | makes begin or append N of the shelf fail and leave its first LEFT bytes |
//! | `fail put N LEFT` | makes put N of the sink fail and leave its first LEFT bytes |
//!
//! | Lines that make a call | what is printed after the line |
//! |---|---|
//! | `top WORD..` | of `top`: status, code, and what the sink has taken |
//! | `each read N NAMES top WORD..` | of `top`, and then of `top` with each of its first N reads failing |
//! | `each write LEFT N NAMES top WORD..`, `each put LEFT N NAMES top WORD..` | the same with begins and appends, and with puts, each of which leaves its first LEFT bytes |
//! | `begin NAME`, `append NAME BYTES` | the result of `begin` or `append` |
//! | `read NAME PLACE ROOM` | of `read_at` with a buffer of ROOM bytes: what was read, or the error |
//! | `fetch NAME LIMIT BYTES` | of `fetch_all`: whether these were fetched, or the error |
//! | `files CALL..` | the same of one of these four, or of `remove NAME`, in the folder that the program runs in |
//! | `put BYTES`, `print BYTES` | the result of `put` to the sink, to standard output |
//! | `reads`, `writes`, `taken` | how many reads, how many begins and appends; what the sink has taken |
//! | `show NAME` | what the shelf holds there, or `absent` |
//! | `show NAME length`, `show NAME is BYTES`, `show NAME starts BYTES`, `show NAME count BYTES` | how many bytes that has; whether it is these, or begins with these; how often these stand in it |
//! | `ask WORD..` | what `read_words` says of them |
//! | `fields BYTES ID` | what `map_fields` says of a variable of these types |
//! | `next N BYTES` | of a capture: its magic number, and what `next` gives N times; or the fault of its header |
//! | `frames BEAT BEAT BEAT` | of `frames_of` in five clocks, none, a full beat, none and two last ones: how many frames, and each |
//!
//! A call of `each` has a sink of its own, and a shelf that holds of NAMES, with a comma between two, what that of the case holds.
//! Printed are status, code, what the sink has taken, how many reads were made and how many begins and appends, and what each name
//! holds: `Kept` is what it held, `Whole` what it holds where no call fails, and `First(N)` so many bytes from the front of that.
//!
//! A WORD `@BYTES` stands for the words of this text, with one space between any two: of no bytes for one empty word. A beat is
//! `WORD:COUNT` or `WORD:COUNT:last`, its word in hexadecimal. Bytes are printed in quotes, with the escapes of `text`, and those of
//! frames in hexadecimal.
#![tactic(auto)]

mod answers;
mod beats;
mod escapes;
mod faults;
mod known;
mod readers;
mod said;
mod shelves;
mod suite;
mod words;

use crate::suite::Suite;
use anyhow::{Context, Result};
use std::{env, fs};

fn main(rt: HostRuntime) -> Result<()> {
    let mut suite = Suite::new(rt.alloc());
    for name in env::args(&rt)?.skip(1) {
        let cases = fs::read_to_string(&rt, name.as_str()).context(format_args!(
            "reading the cases of {name}"
        ))?;
        for line in cases.lines() {
            suite
                .take(&rt, line)
                .context(format_args!("at the line {line:?} of {name}"))?;
        }
    }
    Ok(())
}
