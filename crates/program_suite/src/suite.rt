//! The lines of the cases, one at a time.

use crate::cases::bytes::Named;
use crate::cases::code::Code;
use crate::cases::numbers::{front, number, number_32};
use crate::cases::tables::{Tables, push_maps};
use crate::{graph, objects, packets, pipes, prepared, runs, units};
use anyhow::{Result, bail, ensure};
use row_plan::cell_core::program::PacketIn;
use row_plan::cell_core::xdp_state::beat_core::{FRAME_LIMIT, Frame, Meta};
use std::alloc::Global;
use xdp_object::Program;

/// Bytes by name, and the maps, the program, the packets, the interface and the time of a case.
#[derive(Drop)]
pub(crate) struct Suite {
    alloc: Global,
    named: Named,
    tables: Tables,
    code: Code,
    packets: Vec<PacketIn>,
    ifindex: u32,
    time: u64,
}

impl Suite {
    /// Nothing yet.
    pub(crate) fn new(alloc: Global) -> Result<Suite> {
        Ok(Suite {
            alloc,
            named: Named::new(alloc),
            tables: Tables::new(alloc)?,
            code: Code::new(alloc),
            packets: Vec::new(alloc),
            ifindex: 1,
            time: 0,
        })
    }

    /// Does what a line says.
    pub(crate) fn take(&mut self, rt: &impl Print, line: &str) -> Result<()> {
        let (words, _comment) = line.split_once(" # ").unwrap_or((line, ""));
        let (verb, rest) = words.split_once(' ').unwrap_or((words, ""));
        match verb {
            "" | "#" => {}
            "case" => {
                self.begin()?;
                println!(rt; "== {rest}")?;
            }
            _ if self.make(verb, rest)? => {}
            _ => {
                let mut out = String::new(self.alloc);
                self.answer(verb, rest, &mut out)?;
                println!(rt; "{line} => {out}")?;
            }
        }
        Ok(())
    }

    // Begins a case: names stay.
    fn begin(&mut self) -> Result<()> {
        self.tables = Tables::new(self.alloc)?;
        self.code = Code::new(self.alloc);
        self.packets.clear();
        self.ifindex = 1;
        self.time = 0;
        Ok(())
    }

    // Does what a line says that asks nothing, and whether it is such a line.
    fn make(&mut self, verb: &str, rest: &str) -> Result<bool> {
        match verb {
            "bytes" => self.named.name(rest)?,
            "more" => self.named.more(rest)?,
            "map" => self.tables.declare(rest)?,
            "interface" => self.ifindex = number_32(rest)?,
            "time" => self.time = number(rest)?,
            "packet" => self.add_packet(rest)?,
            _ => return self.code.take(&self.named, verb, rest),
        }
        Ok(true)
    }

    // Adds a packet, which comes by the interface.
    fn add_packet(&mut self, rest: &str) -> Result<()> {
        let (time, words) = front(rest);
        let time = number(time)?;
        let frame = frame_of(self.alloc, &self.named.bytes(words)?)?;
        self.packets.push(PacketIn {
            frame,
            ifindex: self.ifindex,
            time,
        })?;
        Ok(())
    }

    // Adds what a line that asks is answered.
    fn answer(&mut self, verb: &str, rest: &str, out: &mut String) -> Result<()> {
        match verb {
            "text" => units::text(self.alloc, &self.named.bytes(rest)?, out),
            "program" => {
                let (choice, words) = front(rest);
                objects::program(self.alloc, &self.named.bytes(words)?, choice, out)
            }
            "read-maps" => self.tables.read(rest, out),
            "write-maps" => {
                out.push_str("written")?;
                push_maps(self.alloc, &self.tables.maps, out)
            }
            "run" | "compute" => {
                let (first, rest) = front(rest);
                self.run(verb, first, rest, out)
            }
            "pipe" => {
                let (most, hole) = front(rest);
                self.of_program(verb, most, hole, out)
            }
            _ => self.of_program(verb, "", rest, out),
        }
    }

    // The program of the case with these bytes in its hole, if its parts make up one.
    fn program(&self, hole: &str) -> Result<Option<Program>> {
        let hole = self.named.bytes(hole)?;
        self.code.program(self.tables.maps.decls(), &hole)
    }

    // Adds what is asked of the program with these bytes in its hole.
    fn of_program(&mut self, verb: &str, most: &str, hole: &str, out: &mut String) -> Result<()> {
        let Some(program) = self.program(hole)? else {
            return Ok(out.push_str("no program")?);
        };
        let alloc = self.alloc;
        match verb {
            "unfold" => graph::answer(alloc, &program, false, out),
            "count" => graph::answer(alloc, &program, true, out),
            "packets" => {
                packets::answer(alloc, &program, &mut self.tables.maps, &self.packets, out)
            }
            "prepare" => prepared::answer(alloc, &program, &self.packets, out),
            "pipe" if most == "-" => pipes::answer(alloc, &program, &self.packets, None, out),
            "pipe" => {
                let most = Some(number(most)?);
                pipes::answer(alloc, &program, &self.packets, most, out)
            }
            _ => bail!("no such verb"),
        }
    }

    // Adds what the program leaves of a frame: of bytes, with others in its hole, or of numbers, with the first in its hole.
    fn run(&mut self, verb: &str, first: &str, rest: &str, out: &mut String) -> Result<()> {
        let numbers = verb == "compute";
        let hole = if numbers { first } else { rest };
        let Some(program) = self.program(hole)? else {
            return Ok(out.push_str("no program")?);
        };
        let bytes = if numbers {
            bytes_of(self.alloc, rest)?
        } else {
            self.named.bytes(first)?
        };
        let mut frame = frame_of(self.alloc, &bytes)?;
        let meta = Meta {
            ifindex: self.ifindex,
            time: self.time,
        };
        let maps = &mut self.tables.maps;
        runs::run(self.alloc, &program, maps, &mut frame, meta, out)?;
        if numbers {
            runs::push_numbers(frame.bytes(), out)?;
        } else {
            runs::push_digits(frame.bytes(), out)?;
        }
        push_maps(self.alloc, maps, out)
    }
}

// A frame of these bytes.
fn frame_of(alloc: Global, bytes: &[u8]) -> Result<Frame> {
    ensure!(
        1 <= bytes.len() && bytes.len() <= FRAME_LIMIT,
        "1 to {FRAME_LIMIT} bytes"
    );
    Ok(Frame::of(alloc, bytes)?)
}

// The bytes of numbers of 8 bytes.
fn bytes_of(alloc: Global, numbers: &str) -> Result<Vec<u8>> {
    let mut bytes = Vec::new(alloc);
    for word in numbers.split_whitespace() {
        bytes.extend_from_slice(&number(word)?.to_le_bytes())?;
    }
    Ok(bytes)
}
