//! What a cell does with the values of its inputs.

ghost use Rattle.std.specs.Prelude.{◌≡◌};

/// An operator on numbers of 64 bits. It takes the inputs from the first on, as many as it is said to take; those
/// after them count for rows alone. A missing input is 0.
#[derive(Copy, Clone, Debug, PartialEq, Eq)]
pub enum Operator {
    /// This number. It takes none.
    Constant(u64),
    /// This byte of the frame, 0 at and past its end. It takes none.
    Byte(u32),
    /// How many bytes the frame has. It takes none.
    Length,
    /// The interface that the frame came in by. It takes none.
    Ifindex,
    /// When the packet was captured, in nanoseconds. It takes none.
    Time,
    /// Its one input.
    Wire,
    /// Its one input, in the row after it.
    Later,
    /// All its inputs above one another, the first the highest, each so many bits (at most 63) above the next.
    Join(u32),
    /// So many low bits (1 to 64) of its one input, their sign repeated.
    SignExtend(u32),
    /// The other value of each bit of its one input.
    Not,
    And,
    Or,
    Xor,
    /// 1 where one of all its inputs is not 0, else 0.
    Any,
    /// Of three inputs the second where the first is not 0, else the third.
    Select,
    /// Of all its inputs, in pairs, the second of the first pair whose first is not 0, or else of the last pair.
    Phi,
    /// The difference of its two inputs in their row: what is to be divided is made so.
    Difference,
    /// The quotient of two inputs, of which the second is a `NonZero`.
    Quotient,
    /// Their remainder.
    Remainder,
    Add,
    Sub,
    Mul,
    /// The first input shifted to the left by the low six bits of the second.
    ShiftLeft,
    /// The same to the right, with zeros.
    ShiftRight,
    /// 1 where its two inputs are equal, else 0.
    Equal,
    /// 1 where the first of two inputs is the lesser one, else 0.
    Less,
    /// 1 where it is not the greater one, else 0.
    LessOrEqual,
    /// Its one input, but 1 where that is 0.
    NonZero,
    /// Whether the key of a site of this number is there: 1 or 0. It is 0 where an update's flags are unknown.
    Found(u32),
    /// What the operation of a site of this number answers.
    Answer(u32),
    /// The writes of a map that reach a node: a cell of no bits, of which only the row counts.
    Pending,
}

impl Operator {
    ghost use Rattle.cell_core.specs.Cells.{is_read, is_heavy, site_in};

    /// Whether the maps give its value.
    pub const fn is_read(self) -> bool
        ensures { result ≡ is_read self }
    {
        matches!(self, Operator::Found(_) | Operator::Answer(_))
    }

    /// The site that it reads, if it is a read.
    pub const fn site(self) -> Option<u32>
        ensures { result ≡ site_in self }
    {
        match self {
            Operator::Found(site) | Operator::Answer(site) => Some(site),
            _ => None,
        }
    }

    /// Whether its value is there a row after those of its inputs.
    pub const fn is_heavy(self) -> bool
        ensures { result ≡ is_heavy self }
    {
        match self {
            Operator::Later
            | Operator::Add
            | Operator::Sub
            | Operator::Mul
            | Operator::ShiftLeft
            | Operator::ShiftRight
            | Operator::Equal
            | Operator::Less
            | Operator::LessOrEqual
            | Operator::NonZero
            | Operator::Found(_)
            | Operator::Answer(_) => true,
            _ => false,
        }
    }
}
