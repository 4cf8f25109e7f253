//! What is left to read of a text.

ghost use Rattle.std.specs.Prelude.{◌≡◌, slice_range};

use std::cmp;
use verilog_lex::Token;

/// What is left to read: some of the last tokens of a text.
#[derive(Clone, Copy)]
pub struct Rest<'a> {
    pub text: &'a [u8],
    pub tokens: &'a [Token],
}

/// The bytes between two places of a text, as far as it goes.
#[tactic(auto, using(crate::proofs::Spelled::within))]
pub(crate) fn spelled(text: &[u8], start: usize, end: usize) -> &[u8]
    ensures { result.now ≡ slice_range text.now start «end» }
{
    let last = cmp::min(end, text.len());
    let first = cmp::min(start, last);
    &text[first..last]
}
