// The packets of a capture that is held whole.

ghost use Rattle.std.specs.Prelude.{◌≡◌, ◌<◌, ◌-◌, ◌^◌, ◌++◌, ◌∷◌, List, [], length, OnOk, IfOk, IfErr};
ghost use Rattle.pcap_core.specs.Format.{Packet};
ghost use Rattle.pcap_core.specs.Time.{timed_of};
ghost use Rattle.ehdl_top.specs.Forms.{capture_form};
ghost use Rattle.capture_run.specs.Runs.{IsLegal};
ghost use Rattle.ehdl_top.specs.Steps.{IsCaptureOf, HasCaptured, IsGivenUp};

use crate::error::CommandError;
use beat_core::Timed;
use pcap_core::Capture;
use std::alloc::{AllocError, Global};

/// A capture that was read whole.
#[derive(Drop)]
pub(crate) struct Captured {
    /// The magic number, which says what fractions of a second are.
    pub(crate) magic: u32,
    /// The frames of the packets, with their times.
    pub(crate) packets: Vec<Timed>,
}

impl Captured {
    fn new(alloc: Global, magic: u32) -> Captured
        ensures magic { result.magic ≡ magic }
        ensures empty { IsCaptureOf result [] }
    {
        Captured {
            magic,
            packets: Vec::new(alloc),
        }
    }

    // One packet more.
    fn push(&mut self, timed: Timed) -> Result<(), AllocError>
        requires legal { IsLegal timed }
        requires room { length self.old.packets.items < 2 ^ 32 - 1 }
        ensures { OnOk result ((packets : List Packet) (packet : Packet) → timed ≡ timed_of self.old.magic packet → IsCaptureOf self.old packets → (self.new.magic ≡ self.old.magic) × IsCaptureOf self.new (packets ++ packet ∷ [])) }
    {
        self.packets.push(timed)?;
        Ok(())
    }
}

/// The packets of a capture, in order.
pub(crate) fn read_capture(alloc: Global, bytes: &[u8]) -> Result<Captured, CommandError>
    ensures captured { IfOk result (HasCaptured bytes.now) }
    ensures given_up { IfErr result (IsGivenUp capture_form bytes.now) }
{
    let mut capture = match Capture::open(bytes) {
        Ok(capture) => capture,
        Err(fault) => return Err(CommandError::Capture(fault)),
    };
    let mut captured = Captured::new(alloc, capture.magic());
    loop {
        match capture.next() {
            Ok(Some(packet)) => {
                // The bytes of a capture have room for fewer packets.
                if captured.packets.len() >= u32::MAX as usize {
                    return Err(CommandError::NoMemory);
                }
                let timed = capture.timed(alloc, &packet)?;
                captured.push(timed)?;
            }
            Ok(None) => return Ok(captured),
            Err(fault) => return Err(CommandError::Capture(fault)),
        }
    }
}
