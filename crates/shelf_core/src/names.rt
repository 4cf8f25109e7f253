// All names of a shelf in memory.

ghost use Rattle.std.specs.Prelude.{◌≡◌, [], None, Some, OnOk, OnErr, IfSome, IfNone, position, find as find_first};
ghost use Rattle.std.specs.Option.{option_copied};
ghost use Rattle.shelf_core.specs.File.{is_named};
ghost use Rattle.shelf_core.specs.Shelf.{SameHeld, appended};

use crate::entry::Entry;
use crate::faults::Faults;
use std::alloc::{AllocError, Global};
use std::marker::Model;

/// What each name holds, and how often its reads and writes have failed. The names that are not
/// there share one pair of counts, with which a new name begins.
#[derive(Drop)]
pub struct Names {
    alloc: Global,
    entries: Vec<Entry>,
    absent: Faults,
}

impl Model for Names {
    ghost use Rattle.shelf_core.specs.File.{Contents};

    ghost Value = { Contents };

    ghost view = { λ n. record { files = n.entries.items; absent = n.absent } };
}

impl Names {
    ghost use Rattle.shelf_core.specs.File.{held_of, faults_of, Stores, SetsFaults};

    pub fn new(alloc: Global) -> Names
        ensures { result ≡ record { files = []; absent = record { reads = 0; writes = 0 } } }
    {
        Names {
            alloc,
            entries: Vec::new(alloc),
            absent: Faults::NONE,
        }
    }

    pub fn bytes(&self, name: &[u8]) -> Option<&[u8]>
        ensures none { IfNone result (held_of self.now name.now ≡ None) }
        ensures some { IfSome result (λ bytes. held_of self.now name.now ≡ Some bytes.now) }
    {
        let entry = entry_of(&self.entries, name)?;
        Some(entry.bytes())
    }

    pub fn faults(&self, name: &[u8]) -> Faults
        ensures { result ≡ faults_of self.now name.now }
    {
        match entry_of(&self.entries, name) {
            Some(entry) => entry.faults(),
            None => self.absent,
        }
    }

    /// Makes a name hold these bytes.
    pub fn store(&mut self, name: &[u8], bytes: Vec<u8>) -> Result<(), AllocError>
        ensures ok { OnOk result (Stores name.now bytes.items self.old self.new) }
        ensures err { OnErr result (self.new ≡ self.old) }
    {
        match place_of(&self.entries, name) {
            Some(i) => self.entries[i].set_bytes(bytes),
            None => {
                let entry = Entry::new(self.alloc, name, bytes, self.absent)?;
                self.entries.push(entry)?;
            }
        }
        Ok(())
    }

    /// Adds bytes at the end of what a name holds.
    pub fn add(&mut self, name: &[u8], bytes: &[u8]) -> Result<(), AllocError>
        ensures ok { OnOk result (Stores name.now (appended (held_of self.old name.now) bytes.now) self.old self.new) }
        ensures err { OnErr result (self.new ≡ self.old) }
    {
        match place_of(&self.entries, name) {
            Some(i) => self.entries[i].add(bytes),
            None => {
                let bytes = Vec::from_slice(self.alloc, bytes)?;
                self.store(name, bytes)
            }
        }
    }

    /// Sets a name's counts.
    #[tactic(auto, using(crate::proofs::Naming::faults_absent))]
    pub fn set_faults(&mut self, name: &[u8], faults: Faults)
        ensures faults { SetsFaults name.now faults self.old self.new }
        ensures held { SameHeld (held_of self.old) (held_of self.new) }
    {
        match place_of(&self.entries, name) {
            Some(i) => self.entries[i].set_faults(faults),
            None => self.absent = faults,
        }
    }
}

fn entry_of<'a>(entries: &'a [Entry], name: &[u8]) -> Option<&'a Entry>
    ensures { option_copied result ≡ find_first (is_named name.now) entries.now }
{
    entries.iter().find(|entry| entry.is_named(name))
}

fn place_of(entries: &[Entry], name: &[u8]) -> Option<usize>
    ensures { result ≡ position (is_named name.now) entries.now }
{
    entries.iter().position(|entry| entry.is_named(name))
}
