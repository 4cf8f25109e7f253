//! A capture that is read through once, by a feed.

ghost use Rattle.std.specs.Prelude.{◌≡◌, ◌≤◌, ℕ, List, [], take, Some, IsErrOf, IsTrue};
ghost use Rattle.shelf_core.specs.Shelf.{Rose};
ghost use Rattle.shelf_core.specs.Feeding.{IsAheadOf};
ghost use Rattle.beat_core.specs.list_laws.Bytes.{IsBytes};
ghost use Rattle.capture_run.specs.States.{state_of, Changes};
ghost use Rattle.capture_run.specs.Captures.{IsSurveyed};
ghost use Rattle.capture_run.specs.Passing.{Tells, ReadsOut, IsBehindHeader};
ghost use Rattle.capture_run.specs.declared.records.TheConstants.{CAPTURE_LIMIT};

use crate::passing::{read_on, read_record};
use crate::records::{CAPTURE_LIMIT, CaptureError, HEADER_BYTES, Survey};
use pcap_core::{PcapError, Stream};
use shelf_core::{Feed, Shelf};

/// How many bytes are read at once where nothing is known of them.
const BLOCK_BYTES: u32 = 65536;

/// Reads all that is left behind a fault, which is the answer unless a read fails or too many bytes come.
pub(crate) fn read_out<S: Shelf>(
    feed: &mut Feed,
    shelf: &mut S,
    name: &str,
    fault: PcapError,
) -> CaptureError
    requires limit { feed.old.limit ≡ CAPTURE_LIMIT }
    requires within { feed.old.at ≤ CAPTURE_LIMIT }
    ensures limit { feed.new.limit ≡ CAPTURE_LIMIT }
    ensures told { (content : List ℕ) → Tells (state_of S.Shelf shelf.old) name.now content → IsAheadOf (Some content) feed.old → IsBytes (take feed.old.at content) → ReadsOut result fault content }
    ensures failed { result ≡ CaptureError.Failed → Rose (S.read_faults shelf.old name.now) (S.read_faults shelf.new name.now) }
    ensures kept { Changes [] (state_of S.Shelf shelf.old) (state_of S.Shelf shelf.new) }
{
    loop {
        match read_on(feed, shelf, name, BLOCK_BYTES) {
            Ok(count) => {
                if count < BLOCK_BYTES as usize {
                    return CaptureError::Fault(fault);
                }
            }
            Err(error) => return error,
        }
    }
}

/// Reads all records behind the header, and counts them.
pub(crate) fn survey_records<S: Shelf>(
    feed: &mut Feed,
    shelf: &mut S,
    name: &str,
    stream: Stream,
) -> Result<Survey, CaptureError>
    requires limit { feed.old.limit ≡ CAPTURE_LIMIT }
    requires within { feed.old.at ≤ CAPTURE_LIMIT }
    ensures limit { feed.new.limit ≡ CAPTURE_LIMIT }
    ensures told { (content : List ℕ) → Tells (state_of S.Shelf shelf.old) name.now content → IsBehindHeader stream content feed.old → IsSurveyed result (Some content) }
    ensures failed { IsErrOf result CaptureError.Failed → Rose (S.read_faults shelf.old name.now) (S.read_faults shelf.new name.now) }
    ensures kept { Changes [] (state_of S.Shelf shelf.old) (state_of S.Shelf shelf.new) }
{
    let mut count: u32 = 0;
    loop {
        match read_record(feed, shelf, name, &stream, count as u64) {
            Ok(Some(_)) => count += 1,
            Ok(None) => return Ok(Survey { stream, count }),
            Err(CaptureError::Fault(fault)) => return Err(read_out(feed, shelf, name, fault)),
            Err(error) => return Err(error),
        }
    }
}

/// Reads a capture through, from its first byte on.
pub(crate) fn survey_feed<S: Shelf>(
    feed: &mut Feed,
    shelf: &mut S,
    name: &str,
) -> Result<Survey, CaptureError>
    requires limit { feed.old.limit ≡ CAPTURE_LIMIT }
    requires begins { (feed.old.at ≡ 0) × (feed.old.ahead ≡ []) }
    ensures limit { feed.new.limit ≡ CAPTURE_LIMIT }
    ensures told { IsTrue (S.tells shelf.old) → IsSurveyed result (S.held shelf.old name.now) }
    ensures failed { IsErrOf result CaptureError.Failed → Rose (S.read_faults shelf.old name.now) (S.read_faults shelf.new name.now) }
    ensures kept { Changes [] (state_of S.Shelf shelf.old) (state_of S.Shelf shelf.new) }
{
    read_on(feed, shelf, name, HEADER_BYTES)?;
    match Stream::open(feed.given()) {
        Ok(stream) => survey_records(feed, shelf, name, stream),
        Err(fault) => Err(read_out(feed, shelf, name, fault)),
    }
}
