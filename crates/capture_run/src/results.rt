//! What is written of answers: a capture of them, and a verdict line for each.

ghost use Rattle.std.specs.Prelude.{◌≡◌, ◌⊎◌, ◌+◌, ◌<◌, ◌≤◌, ◌^◌, ◌∷◌, [], length, vec_capacity, OnOk, OnErr, IsErrOf, IfErr};
ghost use Rattle.beat_core.specs.declared.frame.TheConstants.{FRAME_LIMIT};
ghost use Rattle.command_line.specs.Request.{names_of};
ghost use Rattle.capture_run.specs.States.{state_of, Changes};
ghost use Rattle.capture_run.specs.Writes.{Begin, Append, IsDone, IsFailed, AreDone, OneFailed, file_writes};
ghost use Rattle.capture_run.specs.Captures.{packet_with};
ghost use Rattle.capture_run.specs.Results.{head_writes, answer_writes, answer_record, line_of};

use crate::error::RunError;
use crate::line::{LINE_LIMIT, write_line};
use crate::records::Stamp;
use beat_core::FRAME_LIMIT;
use command_line::Files;
use pcap_core::{write_header, write_record};
use shelf_core::{Failed, NoMemory, Shelf};
use std::alloc::{AllocError, Global};
use std::marker::Model;

/// How many bytes stand in front of a frame in its record.
const NUMBERS_BYTES: usize = 16;

/// Room for the record and the verdict line of one answer.
#[derive(Drop)]
pub struct ResultRoom {
    record: Vec<u8>,
    line: Vec<u8>,
}

impl Model for ResultRoom {
    ghost use Rattle.std.specs.Prelude.{◌≤◌, ◌+◌, vec_capacity};
    ghost use Rattle.beat_core.specs.declared.frame.TheConstants.{FRAME_LIMIT};
    ghost use Rattle.capture_run.specs.declared.line.TheConstants.{LINE_LIMIT};

    ghost Value = { Unit {0} };

    ghost view = { λ r. tt };

    ghost invariant = { λ r. (16 + FRAME_LIMIT ≤ vec_capacity r.record) × (LINE_LIMIT ≤ vec_capacity r.line) };
}

impl ResultRoom {
    /// Room for the longest record of a frame, and the longest line.
    pub fn new(alloc: Global) -> Result<ResultRoom, AllocError> {
        Ok(ResultRoom {
            record: Vec::with_capacity(alloc, NUMBERS_BYTES + FRAME_LIMIT)?,
            line: Vec::with_capacity(alloc, LINE_LIMIT)?,
        })
    }
}

// Makes a name hold nothing.
fn begin<S: Shelf>(shelf: &mut S, name: &str) -> Result<(), Failed>
    ensures done { OnOk result (IsDone (Begin name.now) (state_of S.Shelf shelf.old) (state_of S.Shelf shelf.new)) }
    ensures failed { OnErr result (IsFailed (Begin name.now) (state_of S.Shelf shelf.old) (state_of S.Shelf shelf.new)) }
{
    shelf.begin(name)
}

// Adds bytes at the end of what a name holds.
fn append<S: Shelf>(shelf: &mut S, name: &str, bytes: &[u8]) -> Result<(), Failed>
    ensures done { OnOk result (IsDone (Append name.now bytes.now) (state_of S.Shelf shelf.old) (state_of S.Shelf shelf.new)) }
    ensures failed { OnErr result (IsFailed (Append name.now bytes.now) (state_of S.Shelf shelf.old) (state_of S.Shelf shelf.new)) }
{
    shelf.append(name, bytes)
}

/// Makes a name hold just these bytes.
#[tactic(auto, using(crate::proofs::WriteLaws::two_done, crate::proofs::WriteLaws::first_failed, crate::proofs::WriteLaws::second_failed))]
pub fn put_file<S: Shelf>(shelf: &mut S, name: &str, bytes: &[u8]) -> Result<(), Failed>
    ensures done { OnOk result (AreDone (file_writes name.now bytes.now) (state_of S.Shelf shelf.old) (state_of S.Shelf shelf.new)) }
    ensures failed { OnErr result (OneFailed (file_writes name.now bytes.now) (state_of S.Shelf shelf.old) (state_of S.Shelf shelf.new)) }
{
    begin(shelf, name)?;
    append(shelf, name, bytes)
}

/// Begins the answers of a capture with this magic number, writes their header, and begins the verdicts.
#[tactic(auto, using(crate::proofs::WriteLaws::failed_before))]
pub fn begin_results<S: Shelf>(shelf: &mut S, files: &Files, magic: u32) -> Result<(), Failed>
    ensures done { OnOk result (AreDone (head_writes (names_of files.now) magic) (state_of S.Shelf shelf.old) (state_of S.Shelf shelf.new)) }
    ensures failed { OnErr result (OneFailed (head_writes (names_of files.now) magic) (state_of S.Shelf shelf.old) (state_of S.Shelf shelf.new)) }
{
    put_file(shelf, files.answer, &write_header(magic))?;
    begin(shelf, files.verdicts)
}

// Makes the record and the verdict line of an answer.
fn make_answer(
    bytes: &mut Vec<u8>,
    line: &mut Vec<u8>,
    index: u64,
    stamp: Stamp,
    verdict: u32,
    target: u32,
    frame: &[u8],
) -> Result<(), NoMemory>
    ensures written { OnOk result (bytes.new.items ≡ answer_record (packet_with stamp frame.now) (record { verdict = verdict; target = target; frame = frame.now })) }
    ensures line { OnOk result (line.new.items ≡ line_of index (record { verdict = verdict; target = target; frame = frame.now })) }
    ensures full { OnErr result ((2 ^ 32 ≤ length frame.now) ⊎ (vec_capacity bytes.old < 16 + length frame.now) ⊎ (vec_capacity line.old < LINE_LIMIT)) }
    ensures bytes_room { vec_capacity bytes.old ≤ vec_capacity bytes.new }
    ensures line_room { vec_capacity line.old ≤ vec_capacity line.new }
{
    // A record has 32 bits for the length of its frame.
    let length = frame.len() as u64;
    if length >= 1 << 32 {
        return Err(AllocError);
    }
    write_record(bytes, stamp.seconds, stamp.fraction, frame)?;
    write_line(line, index, verdict, target, length)
}

// Adds a record to the answers, and a line to the verdicts.
#[tactic(auto, using(crate::proofs::WriteLaws::two_done, crate::proofs::WriteLaws::first_failed, crate::proofs::WriteLaws::second_failed))]
fn append_both<S: Shelf>(
    shelf: &mut S,
    files: &Files,
    bytes: &[u8],
    line: &[u8],
) -> Result<(), Failed>
    ensures done { OnOk result (AreDone (Append files.now.answer.now bytes.now ∷ Append files.now.verdicts.now line.now ∷ []) (state_of S.Shelf shelf.old) (state_of S.Shelf shelf.new)) }
    ensures failed { OnErr result (OneFailed (Append files.now.answer.now bytes.now ∷ Append files.now.verdicts.now line.now ∷ []) (state_of S.Shelf shelf.old) (state_of S.Shelf shelf.new)) }
{
    append(shelf, files.answer, bytes)?;
    append(shelf, files.verdicts, line)
}

/// Writes the record and the verdict line of answer `index`, to a packet that came at a time. It takes memory only where the frame is longer
/// than one may be, and then before it writes.
pub fn put_answer<S: Shelf>(
    shelf: &mut S,
    files: &Files,
    room: &mut ResultRoom,
    index: u64,
    stamp: Stamp,
    verdict: u32,
    target: u32,
    frame: &[u8],
) -> Result<(), RunError>
    ensures done { OnOk result (AreDone (answer_writes (names_of files.now) (packet_with stamp frame.now) index (record { verdict = verdict; target = target; frame = frame.now })) (state_of S.Shelf shelf.old) (state_of S.Shelf shelf.new)) }
    ensures failed { IsErrOf result RunError.Unwritten → OneFailed (answer_writes (names_of files.now) (packet_with stamp frame.now) index (record { verdict = verdict; target = target; frame = frame.now })) (state_of S.Shelf shelf.old) (state_of S.Shelf shelf.new) }
    ensures memory { IsErrOf result RunError.NoMemory → (FRAME_LIMIT < length frame.now) × (shelf.new ≡ shelf.old) }
    ensures errors { IfErr result (λ e. (e ≡ RunError.Unwritten) ⊎ (e ≡ RunError.NoMemory)) }
{
    if make_answer(
        &mut room.record,
        &mut room.line,
        index,
        stamp,
        verdict,
        target,
        frame,
    )
    .is_err()
    {
        return Err(RunError::NoMemory);
    }
    match append_both(shelf, files, &room.record, &room.line) {
        Ok(()) => Ok(()),
        Err(Failed) => Err(RunError::Unwritten),
    }
}
