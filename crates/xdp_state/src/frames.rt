// Accesses to the frame.

ghost use Rattle.std.specs.Prelude.{◌≡◌, ◌+◌, ◌≤◌, ◌+ℤ◌, length, IfSome};
ghost use Rattle.std.specs.Option.{option_map};
ghost use Rattle.xdp_machine.specs.Memory.{bytes_in, inside, from_frame, to_frame};
ghost use Rattle.xdp_state.specs.Views.{value_of};
ghost use Rattle.xdp_state.specs.Cases.{Makes};

use crate::memory::{bytes_in, bytes_of, inside, number_at};
use crate::value::Value;
use xdp_machine::bpf_isa::Size;

// Where an access to a frame of so many bytes begins.
fn in_frame(o: i64, offset: i16, size: Size, len: usize) -> Option<usize>
    ensures value { result ≡ inside (o +ℤ offset) (bytes_in size) len }
    ensures within { IfSome result (λ a. a + bytes_in size ≤ len) }
{
    inside(i128::from(o) + i128::from(offset), bytes_in(size), len)
}

/// A load at an offset from a place in the frame.
pub fn from_frame(frame: &[u8], o: i64, offset: i16, size: Size) -> Option<Value>
    ensures { option_map value_of result ≡ from_frame frame.now (o +ℤ offset) size }
{
    let at = in_frame(o, offset, size, frame.len())?;
    Some(Value::Number(number_at(frame, at, size)))
}

/// A store of a number likewise.
#[tactic(auto, using(xdp_machine::proofs::SizeLaws::low_part))]
pub fn to_frame(frame: &mut [u8], o: i64, offset: i16, size: Size, n: u64) -> bool
    ensures { Makes result (to_frame frame.old (o +ℤ offset) size n) frame.old frame.new }
{
    let Some(at) = in_frame(o, offset, size, frame.len()) else {
        return false;
    };
    let bytes = bytes_of(n);
    let count = bytes_in(size);
    frame[at..at + count].copy_from_slice(&bytes[..count]);
    true
}
