//! Room for one answer.

ghost use Rattle.std.specs.Prelude.{◌≡◌, if◌then◌else◌, ◌<◌, ◌≤◌, ◌&&◌, [], None, true, false, length, vec_capacity, IsSome, IfSome, IfOk, OnOk, OnErr};
ghost use Rattle.beat_core.specs.declared.frame.TheConstants.{FRAME_LIMIT};
ghost use Rattle.net_core.specs.declared.ports.Inputs.{Inputs};
ghost use Rattle.port_drive.specs.Driving.{taken_in, held_bytes};

use crate::answers::bytes_of_word;
use beat_core::FRAME_LIMIT;
use net_core::ports::Outputs;
use std::alloc::{AllocError, Global};
use std::marker::Model;

/// Room for one answer, which is taken beat by beat. Contracts see the bytes of the answer that has begun, and the
/// answer that the last clock has ended, if it ended one.
#[derive(Drop)]
pub struct AnswerRoom {
    verdict: u32,
    target: u32,
    bytes: Vec<u8>,
    whole: bool,
}

impl Model for AnswerRoom {
    ghost use Rattle.std.specs.Prelude.{◌≤◌, [], Some, None, if◌then◌else◌, vec_capacity};
    ghost use Rattle.beat_core.specs.declared.frame.TheConstants.{FRAME_LIMIT};
    ghost use Rattle.beat_core.specs.declared.answer.Answer.{Answer};
    ghost use Rattle.port_drive.specs.Driving.{Taking};

    ghost Value = { Taking };

    ghost view = { λ a. record {
      begun = if a.whole then [] else a.bytes.items;
      last = if a.whole then Some (record { verdict = a.verdict; target = a.target; frame = a.bytes.items }) else None;
    } };

    ghost invariant = { λ a. FRAME_LIMIT ≤ vec_capacity a.bytes };
}

impl AnswerRoom {
    /// No answer has begun.
    pub(crate) fn new(alloc: Global) -> Result<AnswerRoom, AllocError>
        ensures { IfOk result (λ room. room ≡ record { begun = []; last = None }) }
    {
        Ok(AnswerRoom {
            verdict: 0,
            target: 0,
            bytes: Vec::with_capacity(alloc, FRAME_LIMIT)?,
            whole: false,
        })
    }

    /// Takes what the outputs show in a clock that takes it: a beat, or nothing. It says whether the answer has ended.
    /// It takes no memory unless the answer is longer than a frame.
    pub(crate) fn take(&mut self, shown: &Outputs) -> Result<bool, AllocError>
        ensures ended { IfOk result (λ ended. ended ≡ (shown.now.out_valid && shown.now.out_last)) }
        ensures ok { OnOk result ((given : Inputs) → given.out_ready ≡ true → self.new ≡ taken_in self.old.begun (record { given = given; shown = shown.now })) }
        ensures full { OnErr result ((given : Inputs) → given.out_ready ≡ true → let taken = taken_in self.old.begun (record { given = given; shown = shown.now }) in FRAME_LIMIT < length (held_bytes taken.begun taken.last)) }
    {
        restart(&mut self.bytes, self.whole);
        self.whole = false;
        if !shown.out_valid {
            return Ok(false);
        }
        let word = bytes_of_word(shown.out_data);
        let count = (shown.out_bytes as usize).min(8);
        self.bytes.extend_from_slice(&word[..count])?;
        self.verdict = shown.out_verdict;
        self.target = shown.out_target;
        self.whole = shown.out_last;
        Ok(shown.out_last)
    }

    /// The verdict of the answer that has ended.
    pub fn verdict(&self) -> u32
        ensures { IfSome self.now.last (λ answer. result ≡ answer.verdict) }
    {
        self.verdict
    }

    /// The interface that it is sent on to.
    pub fn target(&self) -> u32
        ensures { IfSome self.now.last (λ answer. result ≡ answer.target) }
    {
        self.target
    }

    /// The bytes of its frame.
    pub fn bytes(&self) -> &[u8]
        ensures { IfSome self.now.last (λ answer. result.now ≡ answer.frame) }
    {
        &self.bytes
    }
}

// Begins an answer anew, where the one before is whole.
fn restart(bytes: &mut Vec<u8>, whole: bool)
    ensures items { bytes.new.items ≡ (if whole then [] else bytes.old.items) }
    ensures capacity { vec_capacity bytes.new ≡ vec_capacity bytes.old }
{
    if whole {
        bytes.clear();
    }
}
