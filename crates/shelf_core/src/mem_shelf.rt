// A shelf in memory.

ghost use Rattle.std.specs.Prelude.{◌≡◌, ℕ, ◌-◌, ◌≤◌, min, List, [], length, Option, Some, None, true, OnOk, OnErr, IfOk, IsOk, IsErr, IsSome};
ghost use Rattle.std.specs.Option.{option_copied};
ghost use Rattle.shelf_core.specs.Shelf.{Rose, NoneFell, SameCounts, SameHeld, ChangesOnly, Reads, appended, content_of, LeavesFront};

use crate::calls::{Calls, part_left};
use crate::faults::Faults;
use crate::names::Names;
use crate::outside::{Failed, NoMemory, Shelf};
use std::alloc::Global;
use std::marker::Model;

/// A shelf in memory, which tells what it holds. Calls of it can be made to fail.
///
/// Reads are counted from 1. Begins and appends are counted together, from 1.
#[derive(Drop)]
pub struct MemShelf {
    alloc: Global,
    names: Names,
    reads: Calls,
    writes: Calls,
}

impl Model for MemShelf {
    ghost use Rattle.shelf_core.specs.Memory.{Memory};

    ghost Value = { Memory };

    ghost view = { λ s. record { contents = s.names; reads = s.reads; writes = s.writes } };
}

impl MemShelf {
    ghost use Rattle.shelf_core.specs.Plan.{fails_at};
    ghost use Rattle.shelf_core.specs.File.{Stores};
    ghost use Rattle.shelf_core.specs.Memory.{empty_memory, held_in, read_faults_in, write_faults_in, FailsRead, FailsWrite};

    /// A shelf that holds nothing.
    pub fn new(alloc: Global) -> MemShelf
        ensures { result ≡ empty_memory }
    {
        MemShelf {
            alloc,
            names: Names::new(alloc),
            reads: Calls::new(alloc),
            writes: Calls::new(alloc),
        }
    }

    /// Makes a name hold these bytes. This is no write: it is not counted, and no list makes it fail.
    pub fn hold(&mut self, name: &str, bytes: &[u8]) -> Result<(), NoMemory>
        ensures ok { OnOk result (Stores name.now bytes.now self.old.contents self.new.contents) }
        ensures err { OnErr result (self.new ≡ self.old) }
        ensures calls { self.new ≡ record self.old { contents = self.new.contents } }
    {
        let bytes = Vec::from_slice(self.alloc, bytes)?;
        self.names.store(name.as_bytes(), bytes)
    }

    /// What a name holds, if it is there.
    pub fn held(&self, name: &str) -> Option<&[u8]>
        ensures { option_copied result ≡ held_in self.now name.now }
    {
        self.names.bytes(name.as_bytes())
    }

    /// How many reads were made.
    pub fn reads(&self) -> u64
        ensures { result ≡ self.now.reads.made }
    {
        self.reads.made()
    }

    /// How many begins and appends were made.
    pub fn writes(&self) -> u64
        ensures { result ≡ self.now.writes.made }
    {
        self.writes.made()
    }

    /// Makes a read fail: the first, where `call` is 1.
    pub fn fail_read(&mut self, call: u64) -> Result<(), NoMemory>
        ensures ok { OnOk result (self.new ≡ record self.old { reads = fails_at self.old.reads call 0 }) }
        ensures err { OnErr result (self.new ≡ self.old) }
    {
        self.reads.fail(call, 0)
    }

    /// Makes a begin or an append fail: the first, where `call` is 1. An append leaves the first
    /// `left` of its bytes all the same; a begin leaves what the name held. Of two entries for one
    /// call the first counts.
    pub fn fail_write(&mut self, call: u64, left: u64) -> Result<(), NoMemory>
        ensures ok { OnOk result (self.new ≡ record self.old { writes = fails_at self.old.writes call left }) }
        ensures err { OnErr result (self.new ≡ self.old) }
    {
        self.writes.fail(call, left)
    }

    fn read_fault(&mut self, name: &[u8]) -> Failed
        ensures faults { FailsRead name.now self.old self.new }
        ensures held { SameHeld (held_in self.old) (held_in self.new) }
        ensures reads { NoneFell (read_faults_in self.old) (read_faults_in self.new) }
        ensures writes { NoneFell (write_faults_in self.old) (write_faults_in self.new) }
        ensures calls { self.new ≡ record self.old { contents = self.new.contents } }
    {
        let faults = self.names.faults(name);
        let reads = faults.reads.saturating_add(1);
        self.names.set_faults(name, Faults { reads, ..faults });
        Failed
    }

    fn write_fault(&mut self, name: &[u8]) -> Failed
        ensures faults { FailsWrite name.now self.old self.new }
        ensures held { SameHeld (held_in self.old) (held_in self.new) }
        ensures reads { NoneFell (read_faults_in self.old) (read_faults_in self.new) }
        ensures writes { NoneFell (write_faults_in self.old) (write_faults_in self.new) }
        ensures calls { self.new ≡ record self.old { contents = self.new.contents } }
    {
        let faults = self.names.faults(name);
        let writes = faults.writes.saturating_add(1);
        self.names.set_faults(name, Faults { writes, ..faults });
        Failed
    }
}

impl Shelf for MemShelf {
    ghost use Rattle.std.specs.Prelude.{◌≡◌, true, ◌≤◌, ◌+◌, ◌-◌, min, length, None, Some, [], OnOk, OnErr, IfOk, IsOk, IsErr, IsSome};
    ghost use Rattle.shelf_core.specs.Shelf.{Rose, NoneFell, SameCounts, SameHeld, ChangesOnly, Reads, appended, content_of, LeavesFront};
    ghost use Rattle.shelf_core.specs.Plan.{called, next_left};
    ghost use Rattle.shelf_core.specs.File.{Stores};
    ghost use Rattle.shelf_core.specs.Memory.{held_in, read_faults_in, write_faults_in, FailsRead, FailsWrite, FailsNone, LeavesListed};

    ghost tells = { λ s. true };

    ghost held = { held_in };

    ghost read_faults = { read_faults_in };

    ghost write_faults = { write_faults_in };

    ghost made = { λ s. s.reads.made };

    /// Reads all that there is room for. Fails exactly where the call is listed, or the name is not there.
    fn read_at(&mut self, name: &str, at: u64, into: &mut [u8]) -> Result<usize, Failed>
        ensures bound { IfOk result (λ n. n ≤ length into.new) }
        ensures bytes { IfOk result (λ n. Reads (held_in self.old name.now) at n into.new) }
        ensures all { IfOk result (λ n. n ≡ min (length (content_of (held_in self.old name.now)) - at) (length into.new)) }

        ensures listed { IsSome (next_left self.old.reads) → IsErr result }
        ensures absent { held_in self.old name.now ≡ None → IsErr result }
        ensures ok { next_left self.old.reads ≡ None → IsSome (held_in self.old name.now) → IsOk result }
        ensures unlisted { FailsNone self.old → IsSome (held_in self.old name.now) → IsOk result }

        // No content changes, and of the counts only a failed read's.
        ensures made { self.new.reads.made ≤ self.old.reads.made + 1 }
        ensures unchanged { OnOk result (self.new.contents ≡ self.old.contents) }
        ensures failed { OnErr result (FailsRead name.now self.old self.new) }
        ensures held { SameHeld (held_in self.old) (held_in self.new) }
        ensures reads_same { OnOk result (SameCounts (read_faults_in self.old) (read_faults_in self.new)) }
        ensures writes_same { OnOk result (SameCounts (write_faults_in self.old) (write_faults_in self.new)) }
        ensures reads { NoneFell (read_faults_in self.old) (read_faults_in self.new) }
        ensures writes { NoneFell (write_faults_in self.old) (write_faults_in self.new) }
        ensures calls { self.new ≡ record self.old { contents = self.new.contents; reads = called self.old.reads } }
    {
        let listed = self.reads.next().is_some();
        match self.names.bytes(name.as_bytes()) {
            Some(bytes) if !listed => Ok(copy_part(bytes, at, into)),
            _ => Err(self.read_fault(name.as_bytes())),
        }
    }

    /// Fails where the call is listed, or for want of memory.
    fn begin(&mut self, name: &str) -> Result<(), Failed>
        ensures begun { OnOk result (Stores name.now [] self.old.contents self.new.contents) }
        ensures kept { OnErr result (SameHeld (held_in self.old) (held_in self.new)) }
        ensures listed { IsSome (next_left self.old.writes) → IsErr result }

        // Of the counts only a failed write's changes.
        ensures failed { OnErr result (FailsWrite name.now self.old self.new) }
        ensures reads_same { OnOk result (SameCounts (read_faults_in self.old) (read_faults_in self.new)) }
        ensures writes_same { OnOk result (SameCounts (write_faults_in self.old) (write_faults_in self.new)) }
        ensures reads { NoneFell (read_faults_in self.old) (read_faults_in self.new) }
        ensures writes { NoneFell (write_faults_in self.old) (write_faults_in self.new) }
        ensures calls { self.new ≡ record self.old { contents = self.new.contents; writes = called self.old.writes } }
    {
        let listed = self.writes.next().is_some();
        let nothing = Vec::new(self.alloc);
        if listed || self.names.store(name.as_bytes(), nothing).is_err() {
            return Err(self.write_fault(name.as_bytes()));
        }
        Ok(())
    }

    /// Fails where the call is listed, or for want of memory.
    fn append(&mut self, name: &str, bytes: &[u8]) -> Result<(), Failed>
        ensures appended { OnOk result (Stores name.now (appended (held_in self.old name.now) bytes.now) self.old.contents self.new.contents) }
        ensures kept { OnErr result (LeavesFront (held_in self.old name.now) bytes.now (held_in self.new name.now)) }
        ensures left { OnErr result (LeavesListed (next_left self.old.writes) (held_in self.old name.now) bytes.now (held_in self.new name.now)) }
        ensures others { ChangesOnly name.now (held_in self.old) (held_in self.new) }
        ensures listed { IsSome (next_left self.old.writes) → IsErr result }

        // Of the counts only a failed write's changes.
        ensures failed { OnErr result (FailsWrite name.now self.old self.new) }
        ensures reads_same { OnOk result (SameCounts (read_faults_in self.old) (read_faults_in self.new)) }
        ensures writes_same { OnOk result (SameCounts (write_faults_in self.old) (write_faults_in self.new)) }
        ensures reads { NoneFell (read_faults_in self.old) (read_faults_in self.new) }
        ensures writes { NoneFell (write_faults_in self.old) (write_faults_in self.new) }
        ensures calls { self.new ≡ record self.old { contents = self.new.contents; writes = called self.old.writes } }
    {
        let left = self.writes.next();
        let part = part_left(bytes, left);
        if self.names.add(name.as_bytes(), part).is_err() || left.is_some() {
            return Err(self.write_fault(name.as_bytes()));
        }
        Ok(())
    }
}

// Copies what stands from a place on, as far as there is room, and says how much.
fn copy_part(bytes: &[u8], at: u64, into: &mut [u8]) -> usize
    ensures all { result ≡ min (length bytes.now - at) (length into.new) }
    ensures reads { Reads (Some bytes.now) at result into.new }
{
    let at = usize::try_from(at).unwrap_or(usize::MAX).min(bytes.len());
    let rest = &bytes[at..];
    let n = rest.len().min(into.len());
    into[..n].copy_from_slice(&rest[..n]);
    n
}
