//! Cases of programs, in files of lines: their bytes, objects and maps, their graphs and runs, and pipes of their cells.
//!
//! The program is called with the names of files, and does their lines in order. An empty line and one that begins with
//! `# ` is nothing, and ` # ` begins a comment in any other. A line that asks prints itself, ` => ` and its answer, whose
//! further lines stand after `| `. A line that cannot be read, or asks for what there is not, ends the program with an error.
//!
//! Words stand one space apart. A NUMBER is decimal, or hexadecimal after `0x`. BYTES are words that are done one after the
//! other, each to what those before it have made, and a BYTE-WORD is one of them alone:
//!
//!     DIGITS          adds the bytes of hexadecimal digits
//!     N*DIGITS        adds them N times
//!     @NAME           adds the bytes of a name
//!     ..N             keeps the first N bytes
//!     N:DIGITS        writes these bytes over those from place N on
//!
//! Lines that ask nothing:
//!
//!     case TITLE                      prints `== TITLE`: no maps, no program, no packets, the interface 1 and the time 0, but names stay
//!     bytes NAME BYTES                gives bytes a name
//!     more BYTES                      adds to the bytes that were named last
//!     map KIND KEY VALUE CAPACITY     adds a map, `hash` or `array`, of keys and values of so many bytes; all maps are empty
//!     code BYTES                      adds to the program
//!     hole                            leaves a hole there, the only one
//!     refs PLACE..                    adds places of the program that refer to a map
//!     interface NUMBER                frames come in by this interface
//!     time NUMBER                     the frame of a run comes at this time, in nanoseconds
//!     packet NUMBER BYTES             adds a packet: a frame that comes by the interface, at this time
//!
//! Of bytes (`bpf_isa`, `xdp_object`); an instruction is shown by its operation and its fields:
//!
//!     text BYTES                      the instructions of a text, or the error
//!     program CHOICE BYTES            the program of an object that a function's name chooses, or `-`, with its maps and the places that
//!                                     refer to one; or the code of the fault
//!
//! Of texts of the maps of the case (`maps_text`), in which `_` is a space, `/` a line feed and `^` a carriage return:
//!
//!     read-maps TEXT                  the maps hold what it lists: the text of them; or the code of its first bad line
//!     write-maps                      the text of what they hold
//!
//! Of the program of the case, with BYTES in its hole, if its parts make up one. Of its graph (`unfold_core`, `kind_core`), or its first
//! refusal, by place and number, after which that of a call has the number of the helper:
//!
//!     unfold [BYTES]                  the nodes, by place and copies, and the edges by the nodes' numbers: `>` to the next place, `>>`
//!                                     along a jump
//!     count [BYTES]                   how many nodes and edges
//!
//! Of its runs (`xdp_seq`, `xdp_state`): how it ends, the frame that it leaves, and the text of the maps:
//!
//!     run FRAME BYTES                 over the frame of a BYTE-WORD
//!     compute CODE NUMBER..           with a BYTE-WORD in the hole, over a frame of numbers of 8 bytes, shown as such
//!
//! Of the packets, one after another:
//!
//!     packets [BYTES]                 nodes, stages and records by its graph (`node_rows`), or the first refusal; what the packets leave,
//!                                     a line `INDEX VERDICT TARGET LENGTH` each, with the bytes that change after their places; and the
//!                                     text of the final maps
//!     prepare [BYTES]                 of a program that is found for it and covers it (`cover_search`, `cover_core`): its units, at how many of
//!                                     them the next place would do as well for an origin, and the same, where its packets leave what
//!                                     those of the program do from empty maps; or `none`
//!     pipe NUMBER|- [BYTES]           the same from empty maps; then for each of three ways to drive a pipe of its cells (`pipe_core`)
//!                                     whether it gives the same: a beat is offered and taken in every clock, offered in every third, or
//!                                     taken in every second. In the first way it is to be done in so many clocks, and then it says whether
//!                                     packets were sent back; with `-` in as many as the bound of the pipe says
#![tactic(auto)]

mod cases;
mod graph;
mod objects;
mod packets;
mod pipes;
mod prepared;
mod runs;
mod suite;
mod units;

use crate::suite::Suite;
use anyhow::{Context, Result};
use std::{env, fs};

fn main(rt: HostRuntime) -> Result<()> {
    let mut suite = Suite::new(rt.alloc())?;
    for name in env::args(&rt)?.skip(1) {
        let cases = fs::read_to_string(&rt, name.as_str()).context("reading cases")?;
        for line in cases.lines() {
            suite
                .take(&rt, line)
                .context(format_args!("at the line {line:?}"))?;
        }
    }
    Ok(())
}
