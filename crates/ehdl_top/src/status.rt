// How a run ends.

ghost use Rattle.std.specs.Prelude.{◌≡◌};
ghost use Rattle.ehdl_top.specs.Status.{code_of};

/// How a run ends.
#[derive(Clone, Copy, PartialEq, Eq, Debug)]
pub enum Status {
    /// All that was asked for was done.
    Done,
    /// The words of the command are none that it knows.
    Usage,
    /// The object is damaged, or no object at all.
    Object,
    /// The object is sound, and holds what is not compiled.
    Refused,
    /// A Verilog text, a text of maps or a capture is damaged, or too long.
    Input,
    /// A file could not be read.
    ReadFault,
    /// A file could not be written.
    WriteFault,
    /// Memory ran out.
    NoMemory,
    /// A divisor of the design was zero.
    XValue,
    /// The design gave no answer in time.
    Late,
}

impl Status {
    /// The exit status of the program. 1 is left to the system, which ends a program with it.
    pub fn code(self) -> u8
        ensures { result ≡ code_of self }
    {
        match self {
            Status::Done => 0,
            Status::Usage => 2,
            Status::Object => 3,
            Status::Refused => 4,
            Status::Input => 5,
            Status::ReadFault => 6,
            Status::WriteFault => 7,
            Status::NoMemory => 8,
            Status::XValue => 9,
            Status::Late => 10,
        }
    }
}
