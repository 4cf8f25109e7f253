// What the words can ask for.

use xdp_object::Choice;

/// The files of a run, the Verilog text apart: what is read, and what is written. No two have the same name. The maps that it starts
/// from need no file.
#[derive(Clone, Copy, PartialEq, Eq, Debug)]
pub struct Files<'a> {
    pub object: &'a str,
    pub capture: &'a str,
    pub answer: &'a str,
    pub verdicts: &'a str,
    pub final_maps: &'a str,
    pub maps: Option<&'a str>,
}

/// What the words ask for.
#[derive(Clone, Copy, PartialEq, Eq, Debug)]
pub enum Command<'a> {
    /// To compile an object to a Verilog text.
    Compile {
        object: &'a str,
        verilog: &'a str,
        choice: Choice<'a>,
    },
    /// To compile an object to a Verilog text, and to run this text over a capture.
    Run {
        files: Files<'a>,
        verilog: &'a str,
        choice: Choice<'a>,
        /// The interface that the packets come in by.
        ifindex: u32,
    },
    /// To run a Verilog text that is there.
    Sim {
        files: Files<'a>,
        verilog: &'a str,
        choice: Choice<'a>,
        /// The interface that the packets come in by.
        ifindex: u32,
        /// How many clocks the text may take, at most 500,000,000.
        clocks: u32,
        /// The seed of the order in which events settle, where the text is to be run by events.
        events: Option<u32>,
    },
    /// To run the object's program, one instruction after another.
    Ref {
        files: Files<'a>,
        choice: Choice<'a>,
        /// The interface that the packets come in by.
        ifindex: u32,
    },
    /// To say what a pipeline for the object's program has to hold.
    Report {
        object: &'a str,
        choice: Choice<'a>,
    },
    /// To prepare an object whose program is refused: to write one of a program that does the same and is accepted.
    Prepare {
        object: &'a str,
        output: &'a str,
        choice: Choice<'a>,
    },
    /// To run a program that is at hand over packets that are drawn from a seed.
    Demo {
        seed: u32,
        /// How many packets, at most 100,000.
        packets: u32,
    },
}
