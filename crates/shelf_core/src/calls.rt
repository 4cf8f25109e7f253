// Calls that are counted, of which some are to fail.

ghost use Rattle.std.specs.Prelude.{◌≡◌, OnOk, OnErr};

use std::alloc::{AllocError, Global};
use std::marker::Model;

/// A call that is to fail, by its number from 1, and how many of its bytes it leaves all the same.
#[derive(Clone, Copy, PartialEq, Eq, Debug)]
pub struct Failing {
    pub call: u64,
    pub left: u64,
}

/// Calls of one kind: how many were made, and which are to fail.
#[derive(Drop)]
pub struct Calls {
    made: u64,
    failing: Vec<Failing>,
}

impl Model for Calls {
    ghost use Rattle.shelf_core.specs.Plan.{Plan};

    ghost Value = { Plan };

    ghost view = { λ c. record { made = c.made; failing = c.failing.items } };
}

impl Calls {
    ghost use Rattle.shelf_core.specs.Plan.{no_calls, called, fails_at, next_left};

    pub fn new(alloc: Global) -> Calls
        ensures { result ≡ no_calls }
    {
        Calls {
            made: 0,
            failing: Vec::new(alloc),
        }
    }

    pub fn made(&self) -> u64
        ensures { result ≡ self.now.made }
    {
        self.made
    }

    /// Adds to the list of the calls that are to fail.
    pub fn fail(&mut self, call: u64, left: u64) -> Result<(), AllocError>
        ensures ok { OnOk result (self.new ≡ fails_at self.old call left) }
        ensures err { OnErr result (self.new ≡ self.old) }
    {
        self.failing.push(Failing { call, left })?;
        Ok(())
    }

    /// Counts a call. Where it is to fail, it says how many of its bytes are left all the same.
    pub fn next(&mut self) -> Option<u64>
        ensures counted { self.new ≡ called self.old }
        ensures left { result ≡ next_left self.old }
    {
        self.made = self.made.saturating_add(1);
        let call = self.made;
        let entry = self.failing.iter().find(|entry| entry.call == call)?;
        Some(entry.left)
    }
}

ghost use Rattle.shelf_core.specs.Plan.{left_part};

/// The bytes that a call leaves, which are all where it is not to fail.
pub fn part_left(bytes: &[u8], left: Option<u64>) -> &[u8]
    ensures { result.now ≡ left_part left bytes.now }
{
    match left.map(usize::try_from) {
        Some(Ok(left)) if left < bytes.len() => &bytes[..left],
        _ => bytes,
    }
}
