//! What is held of frames.

/// What is kept of each frame beside its beats: the interface and the time that came with its first beat, or a word of its
/// bytes, eight a word.
#[derive(Clone, Copy, PartialEq, Eq, Debug)]
pub enum Kept {
    Ifindex,
    Time,
    Word(u8),
}

/// The memories after the first three: what else is kept, or the beats of 32 further slots.
#[derive(Clone, Copy, PartialEq, Eq, Debug)]
pub enum Further {
    Kept(Kept),
    Bank(u8),
}
