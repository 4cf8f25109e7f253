//! The lines of the cases, one at a time.

use crate::answers::answer;
use crate::faults::each;
use crate::known::Known;
use crate::said::{ended, number, quoted, truth};
use crate::shelves::call;
use crate::words::words_of;
use anyhow::{Context, Result, bail};
use ehdl_top::top;
use shelf_core::{DirShelf, MemShelf, MemSink, Sink, StdSink};
use std::alloc::Global;
use std::rt::Files;
use std::{fs, str};

/// What the lines so far have made: the bytes that they name, and the shelf and the sink of the case.
#[derive(Drop)]
pub(crate) struct Suite {
    alloc: Global,
    known: Known,
    shelf: MemShelf,
    out: MemSink,
}

impl Suite {
    /// Before the first line.
    pub(crate) fn new(alloc: Global) -> Suite {
        Suite {
            alloc,
            known: Known::new(alloc),
            shelf: MemShelf::new(alloc),
            out: MemSink::new(alloc),
        }
    }

    /// Does what a line says.
    pub(crate) fn take<R: Print + Files>(&mut self, rt: &R, line: &str) -> Result<()> {
        if let Some(text) = line.strip_prefix('|') {
            return self.add_line(text);
        }
        let words: Vec<&str> = line.split_whitespace().collect(self.alloc)?;
        match words.as_slice() {
            [] | ["#", ..] => Ok(()),
            ["==", ..] => {
                self.shelf = MemShelf::new(self.alloc);
                self.out = MemSink::new(self.alloc);
                println!(rt; "{line}")?;
                Ok(())
            }
            ["bytes" | "more" | "hold" | "fail", ..] => self.prepare(&words),
            _ => {
                let said = self.say(rt, &words)?;
                println!(rt; "{line}: {said}")?;
                Ok(())
            }
        }
    }

    // Adds a line, and its end, to the bytes that were named last.
    fn add_line(&mut self, text: &str) -> Result<()> {
        let text = text.strip_prefix(' ').unwrap_or(text);
        self.known.add(text.as_bytes())?;
        self.known.add(b"\n")
    }

    // Does what a line says that is not shown.
    fn prepare(&mut self, words: &[&str]) -> Result<()> {
        match words {
            ["bytes", name, form @ ..] => {
                let bytes = self.bytes(form)?;
                self.known.name(name, &bytes)
            }
            ["more", form @ ..] => {
                let bytes = self.bytes(form)?;
                self.known.add(&bytes)
            }
            ["hold", name, bytes] => Ok(self.shelf.hold(name, self.known.get(bytes)?)?),
            ["fail", "read", call] => Ok(self.shelf.fail_read(call.parse()?)?),
            ["fail", "write", call, left] => {
                Ok(self.shelf.fail_write(call.parse()?, left.parse()?)?)
            }
            ["fail", "put", call, left] => Ok(self.out.fail_put(call.parse()?, left.parse()?)?),
            _ => bail!("no such line"),
        }
    }

    // The bytes that a form stands for.
    fn bytes(&self, form: &[&str]) -> Result<Vec<u8>> {
        match form {
            ["held", name] => {
                let held = self.shelf.held(name).context("nothing is held there")?;
                Ok(Vec::from_slice(self.alloc, held)?)
            }
            _ => self.known.bytes(form),
        }
    }

    // Does what a line says, and says what came of it.
    fn say<R: Print + Files>(&mut self, rt: &R, words: &[&str]) -> Result<String> {
        match words {
            ["top", row @ ..] => self.top(row),
            ["each", row @ ..] => each(self.alloc, &self.shelf, &self.known, row),
            ["show", name, form @ ..] => self.show(name, form),
            ["reads"] => number(self.alloc, self.shelf.reads()),
            ["writes"] => number(self.alloc, self.shelf.writes()),
            ["put", bytes] => ended(self.alloc, self.out.put(self.known.get(bytes)?)),
            ["taken"] => quoted(self.alloc, self.out.held()),
            ["print", bytes] => ended(self.alloc, StdSink::new(rt).put(self.known.get(bytes)?)),
            ["files", row @ ..] => self.files(rt, row),
            ["begin" | "append" | "read" | "fetch", ..] => {
                call(self.alloc, &mut self.shelf, &self.known, words)
            }
            _ => answer(self.alloc, &self.known, words),
        }
    }

    // Makes a call of the real folder.
    fn files<R: Print + Files>(&self, rt: &R, words: &[&str]) -> Result<String> {
        match words {
            ["remove", name] => {
                fs::remove_file(rt, *name)?;
                ended(self.alloc, Ok(()))
            }
            _ => call(
                self.alloc,
                &mut DirShelf::new(self.alloc, rt),
                &self.known,
                words,
            ),
        }
    }

    // Calls the program, and says how it ends and what the sink has taken.
    fn top(&mut self, row: &[&str]) -> Result<String> {
        let words = words_of(self.alloc, &self.known, row)?;
        let status = top(self.alloc, &words, &mut self.shelf, &mut self.out);
        let code = status.code();
        let taken = quoted(self.alloc, self.out.held())?;
        Ok(format!(in self.alloc; "{status:?} {code} {taken}")?)
    }

    // What a name holds, in one form.
    fn show(&self, name: &str, form: &[&str]) -> Result<String> {
        let Some(held) = self.shelf.held(name) else {
            return Ok(String::from_str(self.alloc, "absent")?);
        };
        match form {
            [] => quoted(self.alloc, held),
            ["length"] => number(self.alloc, held.len() as u64),
            ["is", bytes] => truth(self.alloc, held == self.known.get(bytes)?),
            ["starts", bytes] => truth(self.alloc, held.starts_with(self.known.get(bytes)?)),
            ["count", bytes] => {
                let part = str::from_utf8(self.known.get(bytes)?)?;
                let count = str::from_utf8(held)?.matches(part).count();
                number(self.alloc, count as u64)
            }
            _ => bail!("no form of what is held"),
        }
    }
}
