//! Accesses of the host.

/// An access to a word of eight bytes of a slot, the low byte first, and what it writes there; it reads where it writes nothing.
#[derive(Copy, Clone, Debug, PartialEq, Eq)]
pub struct Access {
    pub map: u32,
    pub index: u32,
    pub word: u32,
    pub write: Option<u64>,
}

/// What a word of a slot is. Those of a key and of a value have numbers.
#[derive(Copy, Clone, Debug, PartialEq, Eq)]
pub enum Word {
    Used,
    Key(u32),
    Value(u32),
    Nothing,
}
