//! The program: the words of the process, the files of the current folder and the standard output are handed to `top`.
#![tactic(auto)]

use ehdl_top::{Words, top};
use shelf_core::{DirShelf, StdSink};
use std::env;
use std::io::ErrorKind;
use std::process::ExitCode;

/// What the program ends with where a word is no UTF-8.
const USAGE: u8 = 2;

/// What it ends with where there is no memory for the words.
const NO_MEMORY: u8 = 8;

fn main(rt: HostRuntime) -> ExitCode {
    let alloc = rt.alloc();
    let arguments = match env::args(&rt) {
        Ok(arguments) => arguments,
        Err(error) if error.kind() == ErrorKind::OutOfMemory => return ExitCode::from(NO_MEMORY),
        Err(_) => return ExitCode::from(USAGE),
    };
    let mut words = Words::new(alloc);
    for word in arguments {
        if words.push(&word).is_err() {
            return ExitCode::from(NO_MEMORY);
        }
    }
    let mut shelf = DirShelf::new(alloc, &rt);
    let mut out = StdSink::new(&rt);
    let status = top(alloc, &words, &mut shelf, &mut out);
    ExitCode::from(status.code())
}
