//! A program that is run over a capture, one packet after another.

ghost use Rattle.std.specs.Prelude.{◌≡◌, ◌∷◌, ◌≤◌, List, length, OnOk, IfErr, IsErrOf, IsTrue};
ghost use Rattle.beat_core.specs.declared.frame.TheConstants.{FRAME_LIMIT};
ghost use Rattle.pcap_core.specs.Format.{Packet};
ghost use Rattle.xdp_state.specs.xdp_machine.State.{start};
ghost use Rattle.xdp_state.specs.xdp_machine.Runs.{Leaves, Ended, IsRun, run};
ghost use Rattle.command_line.specs.Request.{names_of};
ghost use Rattle.capture_run.specs.States.{state_of};
ghost use Rattle.capture_run.specs.Captures.{HoldsCapture, StandsBefore, packet_with};
ghost use Rattle.capture_run.specs.Results.{answer_writes};
ghost use Rattle.capture_run.specs.Runs.{IsApart, IsPlainStop, IsRunOver, RunsEnd, AnswersOut, RunsOut, packet_in, answer_left, result_names};

use crate::error::RunError;
use crate::passing::count_of;
use crate::records::{Records, Stamp, Survey};
use crate::results::{ResultRoom, put_answer};
use beat_core::{FRAME_LIMIT, Meta};
use command_line::Files;
use pcap_core::{Rec, Stream};
use shelf_core::Shelf;
use xdp_maps::state::Maps;
use xdp_seq::{SeqPlan, run_bytes};

// Runs the program on a packet, of which the run has an end, and writes its answer.
fn answer_packet<S: Shelf>(
    shelf: &mut S,
    files: &Files,
    room: &mut ResultRoom,
    plan: &mut SeqPlan,
    maps: &mut Maps,
    frame: &mut [u8],
    meta: Meta,
    stamp: Stamp,
    index: u64,
) -> Result<(), RunError>
    requires ends { (e : Leaves) × (run plan.old 1048576 (start (record { frame = frame.old; ifindex = meta.ifindex; time = meta.time }) maps.old) ≡ Ended e) }
    requires frame { length frame.old ≤ FRAME_LIMIT }
    ensures out { (e : Leaves) → IsRun plan.old (record { frame = frame.old; ifindex = meta.ifindex; time = meta.time }) maps.old e → AnswersOut result (answer_writes (names_of files.now) (packet_with stamp frame.old) index (answer_left e)) (maps.new ≡ e.maps) (state_of S.Shelf shelf.old) (state_of S.Shelf shelf.new) }
    ensures over { IsRunOver files.now.capture.now (result_names (names_of files.now)) result (state_of S.Shelf shelf.old) (state_of S.Shelf shelf.new) }
    ensures errors { IsErrOf result RunError.NoMemory → ⊥ }
    ensures plain { IfErr result IsPlainStop }
    ensures plan { plan.new ≡ plan.old }
    ensures decls { maps.new.decls ≡ maps.old.decls }
{
    match run_bytes(plan, maps, frame, meta) {
        Ok(ended) => put_answer(
            shelf,
            files,
            room,
            index,
            stamp,
            ended.verdict,
            ended.target,
            frame,
        ),
        // The run has an end.
        Err(_) => unreachable!(),
    }
}

// Reads the next packet, runs the program on it, and writes its answer.
fn run_next<S: Shelf>(
    shelf: &mut S,
    files: &Files,
    stream: &Stream,
    records: &mut Records,
    room: &mut ResultRoom,
    plan: &mut SeqPlan,
    maps: &mut Maps,
    buffer: &mut [u8],
    ifindex: u32,
    index: u64,
) -> Result<(), RunError>
    requires ends { RunsEnd plan.old maps.old }
    requires buffer { length buffer.old ≡ FRAME_LIMIT }
    ensures told { IsTrue (S.tells shelf.old) → (p : Packet) (rest : List Packet) (e : Leaves) → StandsBefore stream.now (S.held shelf.old files.now.capture.now) records.old (p ∷ rest) → IsRun plan.old (packet_in ifindex stream.now.magic p) maps.old e → AnswersOut result (answer_writes (names_of files.now) p index (answer_left e)) (maps.new ≡ e.maps) (state_of S.Shelf shelf.old) (state_of S.Shelf shelf.new) }
    ensures stands { IsTrue (S.tells shelf.old) → (p : Packet) (rest : List Packet) → StandsBefore stream.now (S.held shelf.old files.now.capture.now) records.old (p ∷ rest) → OnOk result (StandsBefore stream.now (S.held shelf.old files.now.capture.now) records.new rest) }
    ensures over { IsRunOver files.now.capture.now (result_names (names_of files.now)) result (state_of S.Shelf shelf.old) (state_of S.Shelf shelf.new) }
    ensures errors { IsErrOf result RunError.NoMemory → ⊥ }
    ensures plain { IfErr result IsPlainStop }
    ensures plan { plan.new ≡ plan.old }
    ensures decls { maps.new.decls ≡ maps.old.decls }
{
    let stamp = records.next(shelf, files.capture, stream)?;
    let bytes = records.bytes();
    let packet = Rec {
        seconds: stamp.seconds,
        fraction: stamp.fraction,
        bytes,
    };
    let meta = Meta {
        ifindex,
        time: stream.time(&packet),
    };
    let frame = &mut buffer[..count_of(bytes)];
    frame.copy_from_slice(bytes);
    // The maps are in range.
    let _decls = maps.decls();
    answer_packet(shelf, files, room, plan, maps, frame, meta, stamp, index)
}

/// Runs a program over the packets of a capture that was surveyed, read record by record from the first on, and writes the record and the
/// verdict line of each answer as it comes. The maps become what the last run leaves. It takes no memory.
pub fn run_capture<S: Shelf>(
    shelf: &mut S,
    files: &Files,
    survey: &Survey,
    records: &mut Records,
    room: &mut ResultRoom,
    plan: &mut SeqPlan,
    maps: &mut Maps,
    buffer: &mut [u8],
    ifindex: u32,
) -> Result<(), RunError>
    requires apart { IsApart (names_of files.now) }
    requires ends { RunsEnd plan.old maps.old }
    requires buffer { length buffer.old ≡ FRAME_LIMIT }
    ensures told { IsTrue (S.tells shelf.old) → (packets : List Packet) → HoldsCapture survey.now.stream (S.held shelf.old files.now.capture.now) packets → survey.now.count ≡ length packets → StandsBefore survey.now.stream (S.held shelf.old files.now.capture.now) records.old packets → RunsOut (names_of files.now) plan.old ifindex survey.now.stream.magic packets maps.old maps.new result (state_of S.Shelf shelf.old) (state_of S.Shelf shelf.new) }
    ensures over { IsRunOver files.now.capture.now (result_names (names_of files.now)) result (state_of S.Shelf shelf.old) (state_of S.Shelf shelf.new) }
    ensures errors { IsErrOf result RunError.NoMemory → ⊥ }
    ensures plain { IfErr result IsPlainStop }
    ensures decls { maps.new.decls ≡ maps.old.decls }
{
    // The maps are in range.
    let _decls = maps.decls();
    for index in 0..survey.count {
        run_next(
            shelf,
            files,
            &survey.stream,
            records,
            room,
            plan,
            maps,
            buffer,
            ifindex,
            index as u64,
        )?;
    }
    Ok(())
}
