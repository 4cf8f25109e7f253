//! A capture that a name holds, read record by record.

ghost use Rattle.std.specs.Prelude.{◌≡◌, ◌<◌, ◌^◌, [], List, length, IfOk, IsErrOf, IsTrue};
ghost use Rattle.shelf_core.specs.Shelf.{Rose};
ghost use Rattle.shelf_core.specs.Feeding.{IsAheadOf};
ghost use Rattle.pcap_core.specs.Format.{Packet, IsLength};
ghost use Rattle.pcap_core.specs.Streaming.{Opened};
ghost use Rattle.capture_run.specs.States.{state_of, Changes};
ghost use Rattle.capture_run.specs.Captures.{HoldsCapture, IsSurveyed, StandsBefore, Begins, GivesPacket};

use crate::passing::{read_on, read_record};
use crate::surveying::survey_feed;
use pcap_core::{PcapError, Stream};
use shelf_core::{Feed, Shelf};
use std::alloc::{AllocError, Global};
use std::marker::Model;
use thiserror::Error;

/// The most bytes of a capture.
pub const CAPTURE_LIMIT: u64 = 1_073_741_824;

/// How many bytes the header of a capture has.
pub(crate) const HEADER_BYTES: u32 = 24;

/// When a packet came, as its record says.
#[derive(Clone, Copy, Debug)]
pub struct Stamp {
    pub seconds: u32,
    /// Microseconds or nanoseconds, as the capture's magic number says.
    pub fraction: u32,
}

/// Why a capture is not read on.
#[derive(Clone, Copy, PartialEq, Eq, Debug, Error)]
pub enum CaptureError {
    #[error("a read of the capture failed")]
    Failed,
    #[error("the capture is too long")]
    TooLong,
    #[error("{0}")]
    Fault(PcapError),
}

/// What is known of a capture that was read through once: what its header says, and how many packets it has.
#[derive(Drop)]
pub struct Survey {
    pub stream: Stream,
    pub count: u32,
}

/// A reader of the records of a capture, which holds one of them. Contracts see which record comes next, and what was read of the name.
#[derive(Drop)]
pub struct Records {
    feed: Feed,
    index: u64,
}

impl Model for Records {
    ghost use Rattle.std.specs.Prelude.{◌≡◌, ◌≤◌};
    ghost use Rattle.capture_run.specs.Captures.{Reading};
    ghost use Rattle.capture_run.specs.declared.records.TheConstants.{CAPTURE_LIMIT};

    ghost Value = { Reading };

    ghost view = { λ r. record { index = r.index; feed = r.feed } };

    ghost invariant = { λ r. (r.index ≤ r.feed.at) × (r.feed.limit ≡ CAPTURE_LIMIT) };
}

impl Records {
    /// Nothing was read.
    pub fn open(alloc: Global) -> Result<Records, AllocError> {
        Ok(Records {
            feed: Feed::open(alloc, CAPTURE_LIMIT)?,
            index: 0,
        })
    }

    /// Reads a capture through, and says what its header says and how many packets it has; or its first fault, which comes after a
    /// failure of a read, and after too many bytes. It takes no memory.
    pub fn survey<S: Shelf>(&mut self, shelf: &mut S, name: &str) -> Result<Survey, CaptureError>
        ensures held { IsTrue (S.tells shelf.old) → IsSurveyed result (S.held shelf.old name.now) }
        ensures failed { IsErrOf result CaptureError.Failed → Rose (S.read_faults shelf.old name.now) (S.read_faults shelf.new name.now) }
        ensures kept { Changes [] (state_of S.Shelf shelf.old) (state_of S.Shelf shelf.new) }
    {
        self.feed.rewind();
        self.index = 0;
        survey_feed(&mut self.feed, shelf, name)
    }

    /// Begins anew, before the first record. It takes no memory.
    pub fn begin<S: Shelf>(&mut self, shelf: &mut S, name: &str) -> Result<(), CaptureError>
        ensures begins { IsTrue (S.tells shelf.old) → (stream : Opened) (packets : List Packet) → HoldsCapture stream (S.held shelf.old name.now) packets → Begins result stream (S.held shelf.old name.now) self.new packets }
        ensures failed { IsErrOf result CaptureError.Failed → Rose (S.read_faults shelf.old name.now) (S.read_faults shelf.new name.now) }
        ensures kept { Changes [] (state_of S.Shelf shelf.old) (state_of S.Shelf shelf.new) }
    {
        self.feed.rewind();
        self.index = 0;
        let count = read_on(&mut self.feed, shelf, name, HEADER_BYTES)?;
        if count < HEADER_BYTES as usize {
            return Err(CaptureError::Fault(PcapError::Short { at: 0 }));
        }
        Ok(())
    }

    /// Reads the next record: it says when its packet came, and `bytes` has the packet. Where no record comes, that is its fault at this
    /// place. It takes no memory.
    pub fn next<S: Shelf>(
        &mut self,
        shelf: &mut S,
        name: &str,
        stream: &Stream,
    ) -> Result<Stamp, CaptureError>
        ensures gives { IsTrue (S.tells shelf.old) → (packets : List Packet) → StandsBefore stream.now (S.held shelf.old name.now) self.old packets → GivesPacket result stream.now (S.held shelf.old name.now) self.new packets }
        ensures length { IfOk result (λ _. IsLength (length self.new.feed.given)) }
        ensures failed { IsErrOf result CaptureError.Failed → Rose (S.read_faults shelf.old name.now) (S.read_faults shelf.new name.now) }
        ensures kept { Changes [] (state_of S.Shelf shelf.old) (state_of S.Shelf shelf.new) }
    {
        let at = self.feed.at();
        match read_record(&mut self.feed, shelf, name, stream, self.index)? {
            Some(stamp) => {
                self.index += 1;
                Ok(stamp)
            }
            None => Err(CaptureError::Fault(PcapError::Short { at })),
        }
    }

    /// The packet that was read last.
    pub fn bytes(&self) -> &[u8]
        ensures { result.now ≡ self.now.feed.given }
    {
        self.feed.given()
    }
}
