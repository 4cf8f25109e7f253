//! One record of a capture, read by a feed.

ghost use Rattle.std.specs.Prelude.{◌≡◌, ◌+◌, ◌<◌, ◌≤◌, ℕ, List, [], length, Some, None, Err, IfOk, OnErr, IsErrOf, IsTrue};
ghost use Rattle.shelf_core.specs.Shelf.{Rose};
ghost use Rattle.shelf_core.specs.Feeding.{IsAheadOf};
ghost use Rattle.beat_core.specs.list_laws.Bytes.{IsBytes};
ghost use Rattle.pcap_core.specs.Format.{IsLength};
ghost use Rattle.capture_run.specs.States.{state_of, Changes};
ghost use Rattle.capture_run.specs.declared.records.TheConstants.{CAPTURE_LIMIT};
ghost use Rattle.capture_run.specs.Passing.{Tells, IsGiven, GoesOn, GivesBytes, GivesHead, GivesBody, GivesRecord, HasLength};

use crate::records::{CaptureError, Stamp};
use pcap_core::{RecHead, Stream};
use shelf_core::{Feed, FetchError, Shelf};

/// How many bytes the numbers in front of a record have.
const NUMBERS_BYTES: u32 = 16;

/// How many bytes these are.
pub(crate) fn count_of(bytes: &[u8]) -> usize
    ensures count { result ≡ length bytes.now }
    ensures bytes { IsBytes bytes.now }
{
    bytes.len()
}

/// Reads the next bytes of what a name holds, and says how many came: fewer exactly where it ends.
pub(crate) fn read_on<S: Shelf>(
    feed: &mut Feed,
    shelf: &mut S,
    name: &str,
    need: u32,
) -> Result<usize, CaptureError>
    requires need { need ≤ 65536 }
    requires limit { feed.old.limit ≡ CAPTURE_LIMIT }
    ensures given { IfOk result (λ n. IsGiven n need feed.old feed.new) }
    ensures stays { OnErr result (feed.new.at ≡ feed.old.at) }
    ensures limit { feed.new.limit ≡ CAPTURE_LIMIT }
    ensures within { feed.new.at ≤ CAPTURE_LIMIT }
    ensures on { (content : List ℕ) → Tells (state_of S.Shelf shelf.old) name.now content → IsAheadOf (Some content) feed.old → GoesOn content feed.old feed.new }
    ensures told { (content : List ℕ) → Tells (state_of S.Shelf shelf.old) name.now content → IsAheadOf (Some content) feed.old → GivesBytes result content need feed.old feed.new }
    ensures absent { IsTrue (S.tells shelf.old) → S.held shelf.old name.now ≡ None → feed.old.at ≡ 0 → feed.old.ahead ≡ [] → 0 < need → result ≡ Err CaptureError.Failed }
    ensures failed { IsErrOf result CaptureError.Failed → Rose (S.read_faults shelf.old name.now) (S.read_faults shelf.new name.now) }
    ensures kept { Changes [] (state_of S.Shelf shelf.old) (state_of S.Shelf shelf.new) }
{
    match feed.next(shelf, name, need) {
        Ok(()) => Ok(count_of(feed.given())),
        Err(FetchError::Failed) => Err(CaptureError::Failed),
        Err(FetchError::TooLong) => Err(CaptureError::TooLong),
        // A feed takes no memory.
        Err(FetchError::NoMemory) => unreachable!(),
    }
}

/// Reads the numbers of record `index`, unless the capture ends here.
pub(crate) fn read_head<S: Shelf>(
    feed: &mut Feed,
    shelf: &mut S,
    name: &str,
    stream: &Stream,
    index: u64,
) -> Result<Option<RecHead>, CaptureError>
    requires { feed.old.limit ≡ CAPTURE_LIMIT }
    ensures length { IfOk result (λ r. (h : RecHead) → r ≡ Some h → IsLength h.length) }
    ensures place { feed.old.at ≤ feed.new.at }
    ensures limit { feed.new.limit ≡ CAPTURE_LIMIT }
    ensures within { feed.new.at ≤ CAPTURE_LIMIT }
    ensures on { (content : List ℕ) → Tells (state_of S.Shelf shelf.old) name.now content → IsAheadOf (Some content) feed.old → GoesOn content feed.old feed.new }
    ensures told { (content : List ℕ) → Tells (state_of S.Shelf shelf.old) name.now content → IsAheadOf (Some content) feed.old → GivesHead result stream.now.order index content feed.old feed.new }
    ensures failed { IsErrOf result CaptureError.Failed → Rose (S.read_faults shelf.old name.now) (S.read_faults shelf.new name.now) }
    ensures kept { Changes [] (state_of S.Shelf shelf.old) (state_of S.Shelf shelf.new) }
{
    let at = feed.at();
    let count = read_on(feed, shelf, name, NUMBERS_BYTES)?;
    if count == 0 {
        return Ok(None);
    }
    match stream.head(feed.given(), at, index) {
        Ok(head) => Ok(Some(head)),
        Err(fault) => Err(CaptureError::Fault(fault)),
    }
}

/// Reads the packet that follows its numbers, of the record that begins at a place.
pub(crate) fn read_body<S: Shelf>(
    feed: &mut Feed,
    shelf: &mut S,
    name: &str,
    stream: &Stream,
    head: &RecHead,
    at: u64,
) -> Result<Stamp, CaptureError>
    requires head { IsLength head.now.length }
    requires limit { feed.old.limit ≡ CAPTURE_LIMIT }
    ensures length { IfOk result (λ _. (length feed.new.given ≡ head.now.length) × (feed.new.at ≡ feed.old.at + head.now.length)) }
    ensures place { feed.old.at ≤ feed.new.at }
    ensures limit { feed.new.limit ≡ CAPTURE_LIMIT }
    ensures within { feed.new.at ≤ CAPTURE_LIMIT }
    ensures on { (content : List ℕ) → Tells (state_of S.Shelf shelf.old) name.now content → IsAheadOf (Some content) feed.old → GoesOn content feed.old feed.new }
    ensures told { (content : List ℕ) → Tells (state_of S.Shelf shelf.old) name.now content → IsAheadOf (Some content) feed.old → GivesBody result head.now at content feed.old feed.new }
    ensures failed { IsErrOf result CaptureError.Failed → Rose (S.read_faults shelf.old name.now) (S.read_faults shelf.new name.now) }
    ensures kept { Changes [] (state_of S.Shelf shelf.old) (state_of S.Shelf shelf.new) }
{
    read_on(feed, shelf, name, head.length)?;
    match stream.record(head, at, feed.given()) {
        Ok(record) => Ok(Stamp {
            seconds: record.seconds,
            fraction: record.fraction,
        }),
        Err(fault) => Err(CaptureError::Fault(fault)),
    }
}

/// Reads record `index`, unless the capture ends here. It says when its packet came.
pub(crate) fn read_record<S: Shelf>(
    feed: &mut Feed,
    shelf: &mut S,
    name: &str,
    stream: &Stream,
    index: u64,
) -> Result<Option<Stamp>, CaptureError>
    requires { feed.old.limit ≡ CAPTURE_LIMIT }
    ensures length { HasLength result feed.old feed.new }
    ensures place { feed.old.at ≤ feed.new.at }
    ensures limit { feed.new.limit ≡ CAPTURE_LIMIT }
    ensures within { feed.new.at ≤ CAPTURE_LIMIT }
    ensures on { (content : List ℕ) → Tells (state_of S.Shelf shelf.old) name.now content → IsAheadOf (Some content) feed.old → GoesOn content feed.old feed.new }
    ensures told { (content : List ℕ) → Tells (state_of S.Shelf shelf.old) name.now content → IsAheadOf (Some content) feed.old → GivesRecord result stream.now.order index content feed.old feed.new }
    ensures failed { IsErrOf result CaptureError.Failed → Rose (S.read_faults shelf.old name.now) (S.read_faults shelf.new name.now) }
    ensures kept { Changes [] (state_of S.Shelf shelf.old) (state_of S.Shelf shelf.new) }
{
    let at = feed.at();
    match read_head(feed, shelf, name, stream, index)? {
        Some(head) => {
            let stamp = read_body(feed, shelf, name, stream, &head, at)?;
            Ok(Some(stamp))
        }
        None => Ok(None),
    }
}
