//! The rows of the cases, one at a time.

use crate::clocks::Running;
use crate::designs::show_written;
use crate::escapes::unescaped;
use crate::faults::show_part;
use anyhow::{Context, Result, bail};
use indexmap::IndexMap;
use std::alloc::Global;

/// The text under way, texts that are kept by their names, and the design that runs.
#[derive(Drop)]
pub(crate) struct Suite {
    alloc: Global,
    text: String,
    kept: IndexMap<String, String>,
    running: Option<Running>,
}

impl Suite {
    /// Nothing yet.
    pub(crate) fn new(alloc: Global) -> Suite {
        Suite {
            alloc,
            text: String::new(alloc),
            kept: IndexMap::new(alloc),
            running: None,
        }
    }

    /// Does what a row says.
    pub(crate) fn take(&mut self, rt: &impl Print, row: &str) -> Result<()> {
        let (verb, rest) = row.split_once(' ').unwrap_or((row, ""));
        match verb {
            "" | "#" => {}
            "==" => rt.println(row)?,
            "text" => self.text.clear(),
            "|" => {
                self.text.push_str(rest)?;
                self.text.push('\n')?;
            }
            "times" => self.add_often(rest)?,
            "put" => {
                let kept = self.kept.get(rest).context("no such text")?;
                self.text.push_str(kept.as_str())?;
            }
            "keep" => self.keep(rest)?,
            "replace" => self.text = self.changed(rest)?.2,
            "open" => self.running = Some(Running::open(self.alloc, self.text.as_bytes())?),
            "clock" => {
                let running = self.running.as_mut().context("nothing is open")?;
                running.show_clock(rt, self.alloc, rest)?;
            }
            _ => self.show(rt, verb, rest)?,
        }
        Ok(())
    }

    // What only prints.
    fn show(&self, rt: &impl Print, verb: &str, rest: &str) -> Result<()> {
        let text = self.text.as_bytes();
        match verb {
            "whole" => {
                let text = unescaped(self.alloc, rest)?;
                show_part(rt, self.alloc, &text, 0, "", &text)
            }
            "items" => self.items(rt, rest, self.kept("behind")?),
            "front" => self.items(rt, rest, ""),
            "change" => self.change(rt, rest),
            "written" => show_written(rt, self.alloc, text, rest, self.kept(rest)?.as_bytes()),
            _ => bail!("no such verb"),
        }
    }

    // Adds a text as often as a row says, which has a number in front of it.
    fn add_often(&mut self, rest: &str) -> Result<()> {
        let (count, part) = rest.split_once(' ').context("a number and a text")?;
        let count = count.parse::<u32>()?;
        let part = self.plain(part)?;
        for _ in 0..count {
            self.text.push_str(part.as_str())?;
        }
        Ok(())
    }

    // The text that is kept by a name.
    fn kept(&self, name: &str) -> Result<&str> {
        let text = self.kept.get(name).context("no such text")?;
        Ok(text.as_str())
    }

    fn keep(&mut self, name: &str) -> Result<()> {
        let name = String::from_str(self.alloc, name)?;
        self.kept.insert(name, self.text.clone()?)?;
        Ok(())
    }

    // The text that a row spells.
    fn plain(&self, row: &str) -> Result<String> {
        Ok(String::from_utf8(unescaped(self.alloc, row)?)?)
    }

    // The text under way with a part in place of another: how long what is before it is, and what is new, and the whole.
    fn changed(&self, rest: &str) -> Result<(usize, usize, String)> {
        let (old, new) = rest.split_once(" =>").context("a part and a new one")?;
        let new = self.plain(new.strip_prefix(' ').unwrap_or(new))?;
        let (front, behind) = self.parted(&self.plain(old)?)?;
        let text = format!(in self.alloc; "{front}{new}{behind}")?;
        Ok((front.len(), new.len(), text))
    }

    // What stands before a part of the text under way, and what after it.
    fn parted(&self, part: &str) -> Result<(&str, &str)> {
        Ok(self.text.split_once(part).context("no such part")?)
    }

    // Items between what is kept as `before` and more.
    fn items(&self, rt: &impl Print, rest: &str, behind: &str) -> Result<()> {
        let before = self.kept("before")?;
        let items = unescaped(self.alloc, rest)?;
        let mut text = Vec::from_slice(self.alloc, before.as_bytes())?;
        text.extend_from_slice(&items)?;
        text.extend_from_slice(behind.as_bytes())?;
        show_part(rt, self.alloc, &text, before.len(), "", &items)
    }

    // A change of the text under way.
    fn change(&self, rt: &impl Print, rest: &str) -> Result<()> {
        let (place, length, text) = self.changed(rest)?;
        let (old, _) = rest.split_once(" =>").unwrap_or((rest, ""));
        let lead = format!(in self.alloc; "{old} => ")?;
        let text = text.as_bytes();
        let (_, behind) = text.split_at_checked(place).context("no such place")?;
        let new = behind.get(..length).context("what is new")?;
        show_part(rt, self.alloc, text, place, &lead, new)
    }
}
