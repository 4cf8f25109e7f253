// Why a command stops, and what is said of it.

ghost use Rattle.std.specs.Prelude.{◌≡◌, IfOk, IsOk};
ghost use Rattle.ehdl_top.specs.Lines.{line_of};
ghost use Rattle.ehdl_top.specs.Status.{status_of};
ghost use Rattle.capture_run.specs.Runs.{IsPlainStop};
ghost use Rattle.ehdl_top.specs.Steps.{bytes_of, IsFixed, stop_error};

use crate::codes::{capture_line, maps_line, named, numbered, refusal_line, verilog_line};
use crate::status::Status;
use capture_run::{CaptureError, RunError};
use maps_text::MapsError;
use pcap_core::PcapError;
use shelf_core::Failed;
use std::alloc::{AllocError, Global};
use std::marker::Model;
use verilog_read::ReadError;
use xdp_object::ObjectError;
use xdp_state::Refusal;

/// The name of a net. It is seen as its bytes.
#[derive(Drop)]
pub(crate) struct NetName {
    bytes: Vec<u8>,
}

impl Model for NetName {
    ghost use Rattle.std.specs.Prelude.{ℕ, List};

    ghost Value = { List ℕ };

    ghost view = { λ n. n.bytes.items };
}

impl NetName {
    pub(crate) fn new(alloc: Global, name: &str) -> Result<NetName, AllocError>
        ensures { IfOk result (λ n. n ≡ name.now) }
    {
        let bytes = Vec::from_slice(alloc, name.as_bytes())?;
        Ok(NetName { bytes })
    }

    fn as_bytes(&self) -> &[u8]
        ensures { result.now ≡ self.now }
    {
        &self.bytes
    }
}

/// A line: a fixed one, or one with names or numbers in it.
#[derive(Drop)]
pub(crate) enum Line {
    Fixed(&'static [u8]),
    Text(Vec<u8>),
}

impl Line {
    pub(crate) fn as_bytes(&self) -> &[u8]
        ensures { result.now ≡ bytes_of self.now }
    {
        match self {
            Line::Fixed(bytes) => bytes,
            Line::Text(bytes) => bytes,
        }
    }
}

/// Why a command stops.
#[derive(Drop)]
pub(crate) enum CommandError {
    /// The words ask for nothing that is known.
    Usage,
    /// The object is none: its first fault.
    Object(ObjectError),
    /// The object's program is refused.
    Refused(Refusal),
    /// The Verilog text is longer than its limit.
    LongVerilog,
    /// The Verilog text is not in the subset.
    Verilog(ReadError),
    /// The text of maps is longer than its limit.
    LongMaps,
    /// The text of maps is none: its first bad line.
    Maps(MapsError),
    /// The capture is longer than its limit.
    LongCapture,
    /// The capture is none: its first fault.
    Capture(PcapError),
    /// An input could not be read.
    ReadFault,
    /// An output could not be written.
    WriteFault,
    NoMemory,
    /// A clock of a given text stopped at the net of this name.
    XValue(NetName),
    /// The clocks of a given text were used up, with fewer answers than frames.
    Late { answers: u64, frames: u64 },
}

impl From<AllocError> for CommandError {
    ghost use Rattle.std.specs.Prelude.{◌≡◌};
    ghost use Rattle.ehdl_top.specs.declared.error.CommandError.TheVariants.{NoMemory};

    ghost from_gives = { λ _ e. e ≡ NoMemory };

    fn from(_error: AllocError) -> CommandError {
        CommandError::NoMemory
    }
}

// Reading has an error of its own: what else fails is a write.
impl From<Failed> for CommandError {
    ghost use Rattle.std.specs.Prelude.{◌≡◌};
    ghost use Rattle.ehdl_top.specs.declared.error.CommandError.TheVariants.{WriteFault};

    ghost from_gives = { λ _ e. e ≡ WriteFault };

    fn from(_error: Failed) -> CommandError {
        CommandError::WriteFault
    }
}

impl From<CaptureError> for CommandError {
    ghost use Rattle.std.specs.Prelude.{◌≡◌};
    ghost use Rattle.ehdl_top.specs.Steps.{capture_error};

    ghost from_gives = { λ c e. e ≡ capture_error c };

    fn from(error: CaptureError) -> CommandError {
        match error {
            CaptureError::Failed => CommandError::ReadFault,
            CaptureError::TooLong => CommandError::LongCapture,
            CaptureError::Fault(fault) => CommandError::Capture(fault),
        }
    }
}

/// Why a command stops whose run over a capture ended early for what was read or written alone.
pub(crate) fn stopped(error: RunError) -> CommandError
    requires { IsPlainStop error }
    ensures { result ≡ stop_error error }
{
    match error {
        RunError::Capture(error) => CommandError::from(error),
        RunError::Unwritten => CommandError::WriteFault,
        _ => unreachable!(),
    }
}

impl CommandError {
    /// How the command ends.
    pub(crate) fn status(&self) -> Status
        ensures { result ≡ status_of self.now }
    {
        match self {
            CommandError::Usage => Status::Usage,
            CommandError::Object(_) => Status::Object,
            CommandError::Refused(_) => Status::Refused,
            CommandError::LongVerilog | CommandError::Verilog(_) => Status::Input,
            CommandError::LongMaps | CommandError::Maps(_) => Status::Input,
            CommandError::LongCapture | CommandError::Capture(_) => Status::Input,
            CommandError::ReadFault => Status::ReadFault,
            CommandError::WriteFault => Status::WriteFault,
            CommandError::NoMemory => Status::NoMemory,
            CommandError::XValue(_) => Status::XValue,
            CommandError::Late { .. } => Status::Late,
        }
    }

    /// The line that says so. A fixed one takes no memory.
    pub(crate) fn line(&self, alloc: Global) -> Result<Line, AllocError>
        ensures line { IfOk result (λ line. bytes_of line ≡ line_of self.now) }
        ensures fixed { IsFixed self.now → IsOk result }
    {
        let text = match self {
            CommandError::Usage => return Ok(Line::Fixed(b"usage\n")),
            CommandError::LongVerilog => return Ok(Line::Fixed(b"input verilog long\n")),
            CommandError::LongMaps => return Ok(Line::Fixed(b"input maps long\n")),
            CommandError::LongCapture => return Ok(Line::Fixed(b"input capture long\n")),
            CommandError::ReadFault => return Ok(Line::Fixed(b"read fault\n")),
            CommandError::WriteFault => return Ok(Line::Fixed(b"write fault\n")),
            CommandError::NoMemory => return Ok(Line::Fixed(b"no memory\n")),
            CommandError::Object(fault) => named(alloc, b"object ", &fault.code(alloc)?)?,
            CommandError::Refused(refusal) => refusal_line(alloc, *refusal)?,
            CommandError::Verilog(fault) => verilog_line(alloc, *fault)?,
            CommandError::Maps(fault) => maps_line(alloc, *fault)?,
            CommandError::Capture(fault) => capture_line(alloc, *fault)?,
            CommandError::XValue(net) => named(alloc, b"x value ", net.as_bytes())?,
            CommandError::Late { answers, frames } => numbered(alloc, b"late ", *answers, *frames)?,
        };
        Ok(Line::Text(text))
    }
}
