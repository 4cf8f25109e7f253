// Tests: what is found, or why the program is refused.

ghost use Rattle.std.specs.Prelude.{◌≡◌, ◌+◌, ◌%◌, ◌<◌, ◌≤◌, IfOk};
ghost use Rattle.kind_core.specs.Tests.{readable, read_if, number_in, one_number, all_numbers, within, aligned};

use crate::kind::Kind;
use crate::number::Number;
use xdp_state::Why;

/// A kind may be read.
pub(crate) fn readable(kind: Kind) -> Result<(), Why>
    ensures { result ≡ readable kind }
{
    match kind {
        Kind::Unset => Err(Why::Unset),
        Kind::Mixed => Err(Why::Mixed),
        Kind::Stale => Err(Why::Stale),
        _ => Ok(()),
    }
}

/// The same of what is read.
pub(crate) fn read_if(is_read: bool, kind: Kind) -> Result<(), Why>
    ensures { result ≡ read_if is_read kind }
{
    if is_read { readable(kind) } else { Ok(()) }
}

/// The number that a kind is.
pub(crate) fn number_in(kind: Kind) -> Result<Number, Why>
    ensures { result ≡ number_in kind }
{
    match kind {
        Kind::Num(n) => Ok(n),
        _ => Err(Why::Use),
    }
}

// One kind that is read as a number.
fn one_number(kind: Kind) -> Result<Number, Why>
    ensures { result ≡ one_number kind }
{
    readable(kind)?;
    number_in(kind)
}

/// Kinds that are read as numbers, one after the other.
pub(crate) fn all_numbers(kinds: &[Kind]) -> Result<(), Why>
    ensures { result ≡ all_numbers kinds.now }
{
    for kind in kinds {
        one_number(*kind)?;
    }
    Ok(())
}

/// Where an access of `n` bytes begins, in `len`.
pub(crate) fn within(at: i128, n: usize, len: usize) -> Result<usize, Why>
    ensures value { result ≡ within at n len }
    ensures inside { IfOk result (λ a. a + n ≤ len) }
{
    if at < 0 || n > len || at > (len - n) as i128 {
        return Err(Why::Offset);
    }
    Ok(at as usize)
}

/// The same at a multiple of `n`.
pub(crate) fn aligned(at: i128, n: usize, len: usize) -> Result<usize, Why>
    requires { 1 ≤ n }
    ensures value { result ≡ aligned at n len }
    ensures inside { IfOk result (λ a. a + n ≤ len) }
    ensures multiple { IfOk result (λ a. a % n ≡ 0) }
{
    let start = within(at, n, len)?;
    if start % n == 0 {
        Ok(start)
    } else {
        Err(Why::Misaligned)
    }
}
