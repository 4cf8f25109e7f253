//! The wires that other parts read, where the part is that of answers.

ghost use Rattle.std.specs.Prelude.{◌≡◌, ◌≤◌};
ghost use Rattle.frame_net.specs.ScatterNet.Scatter.{last_name, bytes_name, verdict_name, target_name, data_name};

use block_core::name::{Name, Part};

/// Whether the beat is the last of its answer, of one bit.
pub fn last_name<P: Part>(part: P) -> Name<P>
    ensures { result ≡ last_name part }
{
    Name::Wire(part, 3)
}

/// How many bytes of the beat count, of 4 bits.
pub fn bytes_name<P: Part>(part: P) -> Name<P>
    ensures { result ≡ bytes_name part }
{
    Name::Wire(part, 4)
}

/// The verdict, of 32 bits.
pub fn verdict_name<P: Part>(part: P) -> Name<P>
    ensures { result ≡ verdict_name part }
{
    Name::Wire(part, 5)
}

/// The target, of 32 bits.
pub fn target_name<P: Part>(part: P) -> Name<P>
    ensures { result ≡ target_name part }
{
    Name::Wire(part, 6)
}

/// The word of the beat, of 64 bits, where so many words have bytes that may change.
pub fn data_name<P: Part>(part: P, words: u32) -> Name<P>
    requires { words ≤ 255 }
    ensures { result ≡ data_name part words }
{
    Name::Wire(part, 10 + 3 * words)
}
