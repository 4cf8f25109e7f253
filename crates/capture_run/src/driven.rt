//! A design that is driven by a capture, one packet after another.

ghost use Rattle.std.specs.Prelude.{◌≡◌, ◌-◌, ◌<◌, ◌≤◌, ◌^◌, ◌++◌, ◌∷◌, [], List, Some, length, drop, IsTrue, IsErrOf, IfErr, IfSome, OnOk};
ghost use Rattle.std.specs.List.{AllByRecursion};
ghost use Rattle.beat_core.specs.declared.answer.Answer.{Answer};
ghost use Rattle.beat_core.specs.declared.frame.TheConstants.{FRAME_LIMIT};
ghost use Rattle.beat_core.specs.declared.frame.Timed.{Timed};
ghost use Rattle.net_core.specs.Nets.{Netlist};
ghost use Rattle.net_core.specs.Clock.{Stored};
ghost use Rattle.net_core.specs.Trace.{Cycle};
ghost use Rattle.pcap_core.specs.Format.{Packet, IsLength};
ghost use Rattle.pcap_core.specs.Time.{timed_of};
ghost use Rattle.command_line.specs.Request.{names_of};
ghost use Rattle.port_drive.specs.Driving.{undriven, with_packet, Fits, IsDue};
ghost use Rattle.capture_run.specs.States.{state_of, Changes};
ghost use Rattle.capture_run.specs.Captures.{HoldsCapture, StandsBefore, packet_with};
ghost use Rattle.capture_run.specs.Runs.{IsApart, IsLegal, IsRunOver, DrivesSome, DrivesOut, result_names};
ghost use Rattle.capture_run.specs.Driving.{GivesSome, GivesNext, WritesAnswer, IsOfShelf, run_error};

use crate::error::RunError;
use crate::records::{CaptureError, Records, Stamp, Survey};
use crate::results::{ResultRoom, put_answer};
use clock_sim::Clocked;
use command_line::Files;
use pcap_core::{Rec, Stream};
use port_drive::{DriveError, Driver, Turn};
use shelf_core::Shelf;

/// Drives a design by the packets of a capture that was surveyed, and writes the record and the verdict line of each answer as it comes. One
/// reader goes ahead and gives the packets; the other comes behind and tells when the packet of an answer came. It ends with the clock
/// that takes the last answer. It takes memory only where an answer is longer than a frame may be.
pub fn drive_capture<S: Shelf, C: Clocked>(
    shelf: &mut S,
    files: &Files,
    survey: &Survey,
    ahead: &mut Records,
    behind: &mut Records,
    room: &mut ResultRoom,
    driver: &mut Driver,
    sim: &mut C,
) -> Result<(), RunError>
    requires apart { IsApart (names_of files.now) }
    requires undriven { driver.old ≡ undriven driver.old.ifindex driver.old.limit }
    ensures netlist { C.netlist sim.new ≡ C.netlist sim.old }
    ensures some { DrivesSome (C.netlist sim.old) driver.old.ifindex driver.old.limit survey.now.count (C.stored sim.old) (C.stored sim.new) result }
    ensures told { IsTrue (S.tells shelf.old) → (packets : List Packet) → HoldsCapture survey.now.stream (S.held shelf.old files.now.capture.now) packets → survey.now.count ≡ length packets → StandsBefore survey.now.stream (S.held shelf.old files.now.capture.now) ahead.old packets → StandsBefore survey.now.stream (S.held shelf.old files.now.capture.now) behind.old packets → DrivesOut (names_of files.now) (C.netlist sim.old) driver.old.ifindex driver.old.limit survey.now.stream.magic packets (C.stored sim.old) (C.stored sim.new) result (state_of S.Shelf shelf.old) (state_of S.Shelf shelf.new) }
    ensures over { IsRunOver files.now.capture.now (result_names (names_of files.now)) result (state_of S.Shelf shelf.old) (state_of S.Shelf shelf.new) }
{
    let count = u64::from(survey.count);
    loop {
        if driver.answers() == count {
            return Ok(());
        }
        match driver.turn(sim) {
            Ok(Turn::Need) => give_next(shelf, files, survey, ahead, driver)?,
            Ok(Turn::Done) => write_answer(shelf, files, survey, behind, room, driver)?,
            // As many answers as packets are not there yet.
            Ok(Turn::Over) => unreachable!(),
            Err(error) => return Err(run_error(error, count)),
        }
    }
}

// Gives the packet that comes next, or says that none comes.
fn give_next<S: Shelf>(
    shelf: &mut S,
    files: &Files,
    survey: &Survey,
    ahead: &mut Records,
    driver: &mut Driver,
) -> Result<(), RunError>
    requires needs { IsDue (Some Turn.Need) driver.old }
    requires given { driver.old.given ≤ survey.now.count }
    requires few { driver.old.answers < survey.now.count }
    ensures some { OnOk result ((packets : List Timed) → AllByRecursion IsLegal packets → length packets ≡ survey.now.count → GivesSome packets driver.old driver.new) }
    ensures told { IsTrue (S.tells shelf.old) → (packets : List Packet) → survey.now.count ≡ length packets → StandsBefore survey.now.stream (S.held shelf.old files.now.capture.now) ahead.old (drop driver.old.given packets) → GivesNext result survey.now.stream (S.held shelf.old files.now.capture.now) packets ahead.new driver.old driver.new }
    ensures kept { Changes [] (state_of S.Shelf shelf.old) (state_of S.Shelf shelf.new) }
    ensures over { IsRunOver files.now.capture.now (result_names (names_of files.now)) result (state_of S.Shelf shelf.old) (state_of S.Shelf shelf.new) }
    ensures error { IfErr result (λ e. (fault : CaptureError) × (e ≡ RunError.Capture fault)) }
    ensures clocks { (driver.new.clocks ≡ driver.old.clocks) × (driver.new.limit ≡ driver.old.limit) }
{
    if driver.given() == u64::from(survey.count) {
        driver.end();
        return Ok(());
    }
    let stamp = ahead.next(shelf, files.capture, &survey.stream)?;
    give_packet(&survey.stream, stamp, ahead.bytes(), driver);
    Ok(())
}

// Gives a packet that came at a time.
fn give_packet(stream: &Stream, stamp: Stamp, bytes: &[u8], driver: &mut Driver)
    requires needs { IsDue (Some Turn.Need) driver.old }
    requires length { IsLength (length bytes.now) }
    requires count { driver.old.given < 2 ^ 64 - 1 }
    ensures view { driver.new ≡ with_packet driver.old (timed_of stream.now.magic (packet_with stamp bytes.now)) }
    ensures legal { IsLegal (timed_of stream.now.magic (packet_with stamp bytes.now)) }
    ensures fits { (d : Netlist) (first s : Stored) (packets : List Timed) (clocks : List Cycle) → Fits driver.old d first s packets clocks → Fits driver.new d first s (packets ++ timed_of stream.now.magic (packet_with stamp bytes.now) ∷ []) clocks }
{
    let packet = Rec {
        seconds: stamp.seconds,
        fraction: stamp.fraction,
        bytes,
    };
    driver.give(bytes, stream.time(&packet));
}

// Writes the answer that has ended, to the packet that comes next.
fn write_answer<S: Shelf>(
    shelf: &mut S,
    files: &Files,
    survey: &Survey,
    behind: &mut Records,
    room: &mut ResultRoom,
    driver: &Driver,
) -> Result<(), RunError>
    requires ended { (answer : Answer) × (driver.now.last ≡ Some answer) }
    requires some { 1 ≤ driver.now.answers }
    ensures told { IsTrue (S.tells shelf.old) → (p : Packet) (rest : List Packet) → StandsBefore survey.now.stream (S.held shelf.old files.now.capture.now) behind.old (p ∷ rest) → IfSome driver.now.last (λ answer. WritesAnswer result (names_of files.now) survey.now.stream (S.held shelf.old files.now.capture.now) p rest behind.new (driver.now.answers - 1) answer (state_of S.Shelf shelf.old) (state_of S.Shelf shelf.new)) }
    ensures over { IsRunOver files.now.capture.now (result_names (names_of files.now)) result (state_of S.Shelf shelf.old) (state_of S.Shelf shelf.new) }
    ensures memory { IsErrOf result RunError.NoMemory → IfSome driver.now.last (λ answer. FRAME_LIMIT < length answer.frame) }
    ensures error { IfErr result IsOfShelf }
{
    let stamp = behind.next(shelf, files.capture, &survey.stream)?;
    let index = driver.answers() - 1;
    let answer = driver.answer();
    put_answer(
        shelf,
        files,
        room,
        index,
        stamp,
        answer.verdict(),
        answer.target(),
        answer.bytes(),
    )
}

// An error of a drive, where so many frames come in all.
fn run_error(error: DriveError, frames: u64) -> RunError
    ensures { result ≡ run_error error frames }
{
    match error {
        DriveError::X(x) => RunError::X(x),
        DriveError::Late { answers, .. } => RunError::Late { answers, frames },
        DriveError::NoMemory => RunError::NoMemory,
    }
}
