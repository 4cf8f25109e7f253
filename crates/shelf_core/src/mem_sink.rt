// A sink in memory.

ghost use Rattle.std.specs.Prelude.{◌≡◌, OnOk, OnErr};

use crate::calls::{Calls, part_left};
use crate::outside::{Failed, NoMemory, Sink};
use std::alloc::Global;
use std::marker::Model;

/// A sink in memory, which tells what it has taken. Calls of it can be made to fail. They are
/// counted from 1.
#[derive(Drop)]
pub struct MemSink {
    taken: Vec<u8>,
    puts: Calls,
    faults: u64,
}

impl Model for MemSink {
    ghost use Rattle.shelf_core.specs.Memory.{Taken};

    ghost Value = { Taken };

    ghost view = { λ s. record { bytes = s.taken.items; puts = s.puts; faults = s.faults } };
}

impl MemSink {
    ghost use Rattle.std.specs.Prelude.{[]};
    ghost use Rattle.shelf_core.specs.Plan.{no_calls, fails_at};

    /// A sink that has taken nothing.
    pub fn new(alloc: Global) -> MemSink
        ensures { result ≡ record { bytes = []; puts = no_calls; faults = 0 } }
    {
        MemSink {
            taken: Vec::new(alloc),
            puts: Calls::new(alloc),
            faults: 0,
        }
    }

    /// What it has taken.
    pub fn held(&self) -> &[u8]
        ensures { result.now ≡ self.now.bytes }
    {
        &self.taken
    }

    /// Makes a put fail: the first, where `call` is 1. It leaves the first `left` of its bytes all
    /// the same. Of two entries for one call the first counts.
    pub fn fail_put(&mut self, call: u64, left: u64) -> Result<(), NoMemory>
        ensures ok { OnOk result (self.new ≡ record self.old { puts = fails_at self.old.puts call left }) }
        ensures err { OnErr result (self.new ≡ self.old) }
    {
        self.puts.fail(call, left)
    }
}

impl Sink for MemSink {
    ghost use Rattle.std.specs.Prelude.{◌≡◌, ◌++◌, ◌≤◌, true, Some, OnOk, OnErr, IsErr, IsSome};
    ghost use Rattle.shelf_core.specs.Shelf.{LeavesFront};
    ghost use Rattle.shelf_core.specs.Plan.{called, next_left, raised};
    ghost use Rattle.shelf_core.specs.Memory.{LeavesListed};

    ghost tells = { λ s. true };

    ghost taken = { λ s. Some s.bytes };

    ghost faults = { λ s. s.faults };

    /// Fails where the call is listed, or for want of memory.
    fn put(&mut self, bytes: &[u8]) -> Result<(), Failed>
        ensures put { OnOk result (self.new.bytes ≡ self.old.bytes ++ bytes.now) }
        ensures kept { OnErr result (LeavesFront (Some self.old.bytes) bytes.now (Some self.new.bytes)) }
        ensures left { OnErr result (LeavesListed (next_left self.old.puts) (Some self.old.bytes) bytes.now (Some self.new.bytes)) }

        ensures listed { IsSome (next_left self.old.puts) → IsErr result }
        ensures unchanged { OnOk result (self.new.faults ≡ self.old.faults) }
        ensures failed { OnErr result (self.new.faults ≡ raised self.old.faults) }
        ensures count { self.old.faults ≤ self.new.faults }
        ensures calls { self.new.puts ≡ called self.old.puts }
    {
        let left = self.puts.next();
        let part = part_left(bytes, left);
        if self.taken.extend_from_slice(part).is_err() || left.is_some() {
            self.faults = self.faults.saturating_add(1);
            return Err(Failed);
        }
        Ok(())
    }
}
