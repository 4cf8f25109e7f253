// What a name holds, piece by piece.

ghost use Rattle.std.specs.Prelude.{◌≡◌, ◌+◌, ◌<◌, ◌≤◌, [], length, take, vec_len, IfOk, OnOk, OnErr, IsErrOf, IsTrue};
ghost use Rattle.shelf_core.specs.Shelf.{Rose, NoneFell, SameHeld, IsLonger};
ghost use Rattle.shelf_core.specs.Feeding.{StandsAt, IsAheadOf, IsNextOf, GivesNext, IsReadTo};

use crate::fetch::FetchError;
use crate::outside::{NoMemory, Shelf};
use std::alloc::{AllocError, Global};
use std::marker::Model;

/// How many bytes are held at most.
const ROOM: usize = 65536;

/// What a name holds, read piece by piece into one buffer. Contracts see how far it was given, the bytes that
/// were given last, and those that were read ahead of it.
#[derive(Drop)]
pub struct Feed {
    limit: u64,
    at: u64,
    buffer: Vec<u8>,
    // Of the bytes that were given last.
    start: usize,
    // Where they end, and the bytes that were read ahead begin.
    middle: usize,
    end: usize,
}

impl Model for Feed {
    ghost use Rattle.std.specs.Prelude.{◌≡◌, ◌+◌, ◌-◌, ◌≤◌, length, take, drop};
    ghost use Rattle.shelf_core.specs.Feeding.{Feeding};

    ghost Value = { Feeding };

    ghost view = { λ f. record {
      limit = f.limit;
      at = f.at;
      given = drop f.start (take f.middle f.buffer.items);
      ahead = drop f.middle (take f.end f.buffer.items);
    } };

    ghost invariant = { λ f. (f.start ≤ f.middle) × (f.middle ≤ f.end) × (f.end ≤ length f.buffer.items) × (length f.buffer.items ≡ 65536) × (f.at + (f.end - f.middle) ≤ f.limit) };
}

impl Feed {
    /// Nothing was read. At most `limit` bytes are to be.
    pub fn open(alloc: Global, limit: u64) -> Result<Feed, NoMemory>
        ensures { IfOk result (λ feed. feed ≡ record { limit = limit; at = 0; given = []; ahead = [] }) }
    {
        let buffer = zeros(alloc, ROOM)?;
        Ok(Feed {
            limit,
            at: 0,
            buffer,
            start: 0,
            middle: 0,
            end: 0,
        })
    }

    /// Reads the next `need` bytes of what a name holds, or fewer exactly where it ends; `given` has them then.
    /// It takes no memory. An `Err` gives nothing, and the next call goes on from the same place. What it
    /// gives are the name's bytes where those that it has read ahead are, as after each call for that name.
    pub fn next<S: Shelf>(&mut self, shelf: &mut S, name: &str, need: u32) -> Result<(), FetchError>
        requires { need ≤ 65536 }
        ensures ok { OnOk result (GivesNext self.old self.new need) }
        ensures err { OnErr result (self.new ≡ record self.old { given = [] }) }
        ensures within { self.new.at + length self.new.ahead ≤ self.new.limit }

        // What the name holds, on a shelf that tells it.
        ensures next { IsTrue (S.tells shelf.old) → IsAheadOf (S.held shelf.old name.now) self.old → OnOk result (IsNextOf (S.held shelf.old name.now) self.old.at need self.new.given) }
        ensures ahead { IsTrue (S.tells shelf.old) → IsAheadOf (S.held shelf.old name.now) self.old → IsAheadOf (S.held shelf.old name.now) self.new }

        // As for a name that is fetched whole.
        ensures failed { IsErrOf result FetchError.Failed → Rose (S.read_faults shelf.old name.now) (S.read_faults shelf.new name.now) }
        ensures too_long { IsErrOf result FetchError.TooLong → IsTrue (S.tells shelf.old) → IsAheadOf (S.held shelf.old name.now) self.old → IsLonger self.old.limit (S.held shelf.old name.now) }
        ensures memory { IsErrOf result FetchError.NoMemory → ⊥ }

        // Reading changes no content.
        ensures made { S.made shelf.new ≤ S.made shelf.old + need }
        ensures held { SameHeld (S.held shelf.old) (S.held shelf.new) }
        ensures tells { S.tells shelf.new ≡ S.tells shelf.old }
        ensures reads { NoneFell (S.read_faults shelf.old) (S.read_faults shelf.new) }
        ensures writes { NoneFell (S.write_faults shelf.old) (S.write_faults shelf.new) }
    {
        let need = need as usize;
        let kept = self.end - self.middle;
        if need <= kept {
            self.start = self.middle;
            self.middle += need;
            self.at += need as u64;
            return Ok(());
        }
        self.buffer.copy_within(self.middle..self.end, 0);
        self.start = 0;
        self.middle = 0;
        self.end = kept;
        match read_on(
            shelf,
            name,
            self.at,
            self.limit,
            need,
            kept,
            &mut self.buffer,
        ) {
            Ok(end) => {
                self.end = end;
                self.middle = need.min(end);
                self.at += self.middle as u64;
                Ok(())
            }
            Err(error) => Err(error),
        }
    }

    /// The bytes that were given last.
    pub fn given(&self) -> &[u8]
        ensures { result.now ≡ self.now.given }
    {
        &self.buffer[self.start..self.middle]
    }

    /// How many bytes were given so far.
    pub fn at(&self) -> u64
        ensures { result ≡ self.now.at }
    {
        self.at
    }

    /// Begins anew, with nothing read.
    pub fn rewind(&mut self)
        ensures { self.new ≡ record { limit = self.old.limit; at = 0; given = []; ahead = [] } }
    {
        self.at = 0;
        self.start = 0;
        self.middle = 0;
        self.end = 0;
    }
}

// Reads on behind the bytes that are kept in front of a buffer, which stand at a place, until there are as many as are
// needed, or the end comes. It says how many there are.
fn read_on<S: Shelf>(
    shelf: &mut S,
    name: &str,
    at: u64,
    limit: u64,
    need: usize,
    kept: usize,
    buffer: &mut [u8],
) -> Result<usize, FetchError>
    requires room { need ≤ length buffer.old }
    requires kept { kept < need }
    requires limit { at + kept ≤ limit }
    ensures more { IfOk result (λ end. kept ≤ end) }
    ensures room { IfOk result (λ end. end ≤ length buffer.new) }
    ensures within { IfOk result (λ end. at + end ≤ limit) }
    ensures same { take kept buffer.new ≡ take kept buffer.old }
    ensures stand { IsTrue (S.tells shelf.old) → StandsAt (S.held shelf.old name.now) at (take kept buffer.old) → IfOk result (λ end. StandsAt (S.held shelf.old name.now) at (take end buffer.new)) }
    ensures ends { IsTrue (S.tells shelf.old) → IfOk result (λ end. IsReadTo (S.held shelf.old name.now) (at + end) (need ≤ end)) }
    ensures failed { IsErrOf result FetchError.Failed → Rose (S.read_faults shelf.old name.now) (S.read_faults shelf.new name.now) }
    ensures too_long { IsErrOf result FetchError.TooLong → IsTrue (S.tells shelf.old) → IsLonger limit (S.held shelf.old name.now) }
    ensures memory { IsErrOf result FetchError.NoMemory → ⊥ }
    ensures made { S.made shelf.new ≤ S.made shelf.old + need }
    ensures held { SameHeld (S.held shelf.old) (S.held shelf.new) }
    ensures tells { S.tells shelf.new ≡ S.tells shelf.old }
    ensures reads { NoneFell (S.read_faults shelf.old) (S.read_faults shelf.new) }
    ensures writes { NoneFell (S.write_faults shelf.old) (S.write_faults shelf.new) }
{
    let mut end = kept;
    while end < need {
        let n = shelf
            .read_at(name, at + end as u64, &mut buffer[end..])
            .map_err(|_| FetchError::Failed)?;
        if n == 0 {
            return Ok(end);
        }
        if n as u64 > limit - at - end as u64 {
            return Err(FetchError::TooLong);
        }
        end += n;
    }
    Ok(end)
}

fn zeros(alloc: Global, len: usize) -> Result<Vec<u8>, AllocError>
    ensures { IfOk result (λ v. vec_len v ≡ len) }
{
    vec![in alloc; 0; len]
}
