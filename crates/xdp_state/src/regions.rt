// The bytes that a pointer leads to.

ghost use Rattle.std.specs.Prelude.{◌≡◌, ◌≤◌, length};
ghost use Rattle.xdp_machine.specs.Helpers.{region};
ghost use Rattle.xdp_state.specs.Views.{value_of};
ghost use Rattle.xdp_state.specs.Cases.{Fills};

use crate::memory::inside;
use crate::stack::{STACK_BYTES, Stack};
use crate::value::Value;

/// Fills a buffer with the bytes that a pointer leads to.
pub fn fill(stack: &Stack, frame: &[u8], pointer: &Value, into: &mut [u8]) -> bool
    requires { length into.old ≤ 64 }
    ensures { Fills result (region stack.now frame.now (length into.old) (value_of pointer.now)) into.new }
{
    let n = into.len();
    match pointer {
        Value::Packet(o) => match inside(i128::from(*o), n, frame.len()) {
            Some(at) => {
                into.copy_from_slice(&frame[at..at + n]);
                true
            }
            None => false,
        },
        Value::Stack(o) => {
            match inside(i128::from(*o) + STACK_BYTES as i128, n, STACK_BYTES) {
                Some(at) => stack.fill(at, into),
                None => false,
            }
        }
        _ => false,
    }
}
