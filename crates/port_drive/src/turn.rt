//! What a driver comes to.

/// Why a driver stands still.
#[derive(Clone, Copy, PartialEq, Eq, Debug)]
pub enum Turn {
    /// Every beat of the packets that were given has gone over, and more may come.
    Need,
    /// The last clock took an answer's last beat.
    Done,
    /// No more packets come, and there are as many answers as packets.
    Over,
}
