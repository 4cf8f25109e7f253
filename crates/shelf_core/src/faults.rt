// How often calls of a name have failed.

/// How often reads and writes have failed. Each stays at `u64::MAX` once it is there.
#[derive(Clone, Copy, PartialEq, Eq, Debug)]
pub struct Faults {
    pub reads: u64,
    pub writes: u64,
}

impl Faults {
    pub const NONE: Faults = Faults {
        reads: 0,
        writes: 0,
    };
}
