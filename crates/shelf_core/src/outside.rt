// The traits of what lies outside: a shelf and a sink.

ghost use Rattle.std.specs.Prelude.{◌≡◌, ◌⊎◌, ℕ, ◌+◌, ◌≤◌, List, [], length, Option, Some, OnOk, OnErr, IfOk, IsTrue, Bool};
ghost use Rattle.shelf_core.specs.Shelf.{Holding, Counts, Rose, NoneFell, SameCounts, SameHeld, ChangesOnly, Reads, appended, LeavesFront};

use std::alloc::AllocError;
use thiserror::Error;

/// A read or a write could not be done.
#[derive(Clone, Copy, PartialEq, Eq, Debug, Error)]
#[error("a read or a write failed")]
pub struct Failed;

/// There was no memory left for what the call had to keep.
pub type NoMemory = AllocError;

/// Contents by name, as files in a folder. A name is any text, and holds bytes or is not there.
///
/// A shelf counts its failures: for each name those of reads and those of writes. A count is a
/// `u64`; it rises at a failure and at nothing else, never falls, and stays at its greatest number
/// once it is there.
pub trait Shelf {
    /// Whether it tells what it holds. One that does not promises nothing of contents.
    ghost tells: { Self → Bool };

    /// What each name holds.
    ghost held: { Self → Holding };

    /// How often reading has failed, by name.
    ghost read_faults: { Self → Counts };

    /// How often writing has failed, by name.
    ghost write_faults: { Self → Counts };

    /// How many reads were made, where it counts them: no read counts for more than one.
    ghost made: { Self → ℕ };

    /// Reads from byte `at` on into the front of `into`, and says how many bytes it read. It may
    /// read fewer than there is room for, but none only at the end. What the rest of `into` holds
    /// afterwards is left open. A name that is not there cannot be read.
    fn read_at(&mut self, name: &str, at: u64, into: &mut [u8]) -> Result<usize, Failed>
        ensures bound { IfOk result (λ n. n ≤ length into.new) }
        ensures bytes { IfOk result (λ n. IsTrue (tells self.old) → Reads (held self.old name.now) at n into.new) }
        ensures failed { OnErr result (Rose (read_faults self.old name.now) (read_faults self.new name.now)) }

        // Reading changes no content.
        ensures made { made self.new ≤ made self.old + 1 }
        ensures held { SameHeld (held self.old) (held self.new) }
        ensures tells { tells self.new ≡ tells self.old }

        // Only a failure raises a count.
        ensures reads_same { OnOk result (SameCounts (read_faults self.old) (read_faults self.new)) }
        ensures writes_same { OnOk result (SameCounts (write_faults self.old) (write_faults self.new)) }
        ensures reads { NoneFell (read_faults self.old) (read_faults self.new) }
        ensures writes { NoneFell (write_faults self.old) (write_faults self.new) };

    /// Makes a name hold nothing, whether it was there or not. After a failure it holds what it
    /// held, or nothing.
    fn begin(&mut self, name: &str) -> Result<(), Failed>
        ensures begun { OnOk result (IsTrue (tells self.old) → held self.new name.now ≡ Some []) }
        ensures kept { OnErr result (IsTrue (tells self.old) → (held self.new name.now ≡ held self.old name.now) ⊎ (held self.new name.now ≡ Some [])) }
        ensures failed { OnErr result (Rose (write_faults self.old name.now) (write_faults self.new name.now)) }

        // No other name's content changes.
        ensures others { ChangesOnly name.now (held self.old) (held self.new) }
        ensures tells { tells self.new ≡ tells self.old }

        // Only a failure raises a count.
        ensures reads_same { OnOk result (SameCounts (read_faults self.old) (read_faults self.new)) }
        ensures writes_same { OnOk result (SameCounts (write_faults self.old) (write_faults self.new)) }
        ensures reads { NoneFell (read_faults self.old) (read_faults self.new) }
        ensures writes { NoneFell (write_faults self.old) (write_faults self.new) };

    /// Adds bytes at the end of what a name holds. One that was not there then holds these bytes
    /// alone. After a failure it holds a front of what success would have left, or is still not
    /// there.
    fn append(&mut self, name: &str, bytes: &[u8]) -> Result<(), Failed>
        ensures appended { OnOk result (IsTrue (tells self.old) → held self.new name.now ≡ Some (appended (held self.old name.now) bytes.now)) }
        ensures kept { OnErr result (IsTrue (tells self.old) → LeavesFront (held self.old name.now) bytes.now (held self.new name.now)) }
        ensures failed { OnErr result (Rose (write_faults self.old name.now) (write_faults self.new name.now)) }

        // No other name's content changes.
        ensures others { ChangesOnly name.now (held self.old) (held self.new) }
        ensures tells { tells self.new ≡ tells self.old }

        // Only a failure raises a count.
        ensures reads_same { OnOk result (SameCounts (read_faults self.old) (read_faults self.new)) }
        ensures writes_same { OnOk result (SameCounts (write_faults self.old) (write_faults self.new)) }
        ensures reads { NoneFell (read_faults self.old) (read_faults self.new) }
        ensures writes { NoneFell (write_faults self.old) (write_faults self.new) };
}

/// Where bytes are put one after another, as on standard output.
///
/// A sink counts its failures, as a shelf does.
pub trait Sink {
    /// Whether it tells what it has taken. One that does not promises nothing of it.
    ghost tells: { Self → Bool };

    /// What it has taken. `None` is the same as nothing.
    ghost taken: { Self → Option (List ℕ) };

    /// How often putting has failed.
    ghost faults: { Self → ℕ };

    /// Puts bytes after those that were put before. After a failure a front of them was put.
    fn put(&mut self, bytes: &[u8]) -> Result<(), Failed>
        ensures put { OnOk result (IsTrue (tells self.old) → taken self.new ≡ Some (appended (taken self.old) bytes.now)) }
        ensures kept { OnErr result (IsTrue (tells self.old) → LeavesFront (taken self.old) bytes.now (taken self.new)) }
        ensures failed { OnErr result (Rose (faults self.old) (faults self.new)) }
        ensures tells { tells self.new ≡ tells self.old }
        ensures same { OnOk result (faults self.new ≡ faults self.old) }
        ensures count { faults self.old ≤ faults self.new };
}
