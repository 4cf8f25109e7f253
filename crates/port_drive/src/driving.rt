//! The full drive of a design.

ghost use Rattle.std.specs.Prelude.{◌≡◌, ◌<◌, ◌≤◌, ◌++◌, ◌∷◌, [], length, Some, OnOk, OnErr, IfSome};
ghost use Rattle.realization.specs.History.{answers_given};
ghost use Rattle.port_drive.specs.Driving.{IsDue};
ghost use Rattle.port_drive.specs.Giving.{GivesOn};
ghost use Rattle.port_drive.specs.Reports.{full_drive, Reports, Gives, Leaves};

use crate::answer_room::AnswerRoom;
use crate::answers::Answers;
use crate::driver::Driver;
use crate::report::{Drive, DriveError};
use crate::turn::Turn;
use beat_core::{Answer, Bytes, Timed};
use clock_sim::Clocked;
use std::alloc::{AllocError, Global};

/// Drives a design by these frames, in at most `limit` clocks. At each clock the next beat is offered while one is
/// left, beside the interface number and the time of its frame, a last word filled up with zeros; what is shown is taken,
/// and the host is silent. The drive ends with the clock
/// that takes the last beat of as many answers as there are frames, even where beats are left to offer. What was given is
/// added to the answers, after an error too.
pub fn drive<C: Clocked>(
    alloc: Global,
    sim: &mut C,
    frames: &[Timed],
    ifindex: u32,
    limit: u64,
    answers: &mut Answers,
) -> Result<Drive, DriveError>
    ensures netlist { C.netlist sim.new ≡ C.netlist sim.old }
    ensures reports { Reports (full_drive (C.netlist sim.old) ifindex (C.stored sim.old) frames.now limit) (length frames.now) result }
    ensures answers { Gives result answers.old answers.new (answers_given [] (full_drive (C.netlist sim.old) ifindex (C.stored sim.old) frames.now limit).trace) }
    ensures stored { Leaves result (C.netlist sim.old) (C.stored sim.old) (full_drive (C.netlist sim.old) ifindex (C.stored sim.old) frames.now limit).trace (C.stored sim.new) }
{
    let Ok(mut driver) = Driver::open(alloc, ifindex, limit) else {
        return Err(DriveError::NoMemory);
    };
    loop {
        let report = driver.report();
        if driver.answers() == frames.len() as u64 {
            return Ok(report);
        }
        match driver.turn(sim) {
            Ok(Turn::Need) => give_next(&mut driver, frames),
            Ok(Turn::Done) => {
                if push_copy(alloc, driver.answer(), answers).is_err() {
                    return Err(DriveError::NoMemory);
                }
            }
            // As many answers as frames are not there yet.
            Ok(Turn::Over) => unreachable!(),
            Err(
                DriveError::Late {
                    answers,
                    clocks,
                    ..
                },
            ) => {
                let frames = frames.len() as u64;
                return Err(DriveError::Late {
                    answers,
                    frames,
                    clocks,
                });
            }
            Err(DriveError::X(x)) => return Err(DriveError::X(x)),
            Err(DriveError::NoMemory) => return Err(DriveError::NoMemory),
        }
    }
}

// Gives the frame that comes next, or says that none comes.
fn give_next(driver: &mut Driver, frames: &[Timed])
    requires needs { IsDue (Some Turn.Need) driver.old }
    requires given { driver.old.given ≤ length frames.now }
    requires few { driver.old.answers < length frames.now }
    ensures { GivesOn frames.now driver.old driver.new }
{
    let next = driver.given() as usize;
    if next < frames.len() {
        let packet = &frames[next];
        driver.give(packet.frame.bytes(), packet.time);
    } else {
        driver.end();
    }
}

// Adds a copy of the answer that has ended.
fn push_copy(alloc: Global, ended: &AnswerRoom, answers: &mut Answers) -> Result<(), AllocError>
    ensures ok { OnOk result (IfSome ended.now.last (λ answer. answers.new ≡ answers.old ++ answer ∷ [])) }
    ensures err { OnErr result (answers.new ≡ answers.old) }
{
    let frame = Bytes::of(alloc, ended.bytes())?;
    answers.push(Answer {
        verdict: ended.verdict(),
        target: ended.target(),
        frame,
    })
}
