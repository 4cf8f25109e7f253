//! What stands for names, as the text before says.

ghost use Rattle.std.specs.Prelude.{◌≡◌};
ghost use Rattle.verilog_expression.specs.Expressions.{Resolve, entry_at};
ghost use Rattle.verilog_expression.specs.View.{Gives, lexemes_left};
ghost use Rattle.verilog_expression.specs.Statements.{Free};

use crate::entry::Entry;
use crate::error::PhraseError;
use crate::fault::Code;
use crate::lexemes::{fault, name};
use crate::rest::Rest;
use net_core::tree::Net;

/// What names stand for at a place of a text, and what an always block may set there.
pub trait Names {
    /// What each name stands for.
    ghost names: { Self → Resolve };

    /// Which registers and memories no earlier always block sets.
    ghost free: { Self → Free };

    /// What a name stands for.
    fn find(&self, name: &[u8]) -> Option<Entry>
        ensures { result ≡ names self.now name.now };

    /// Whether no earlier always block sets a register or a memory.
    fn is_free(&self, target: Net) -> bool
        ensures { result ≡ free self.now target };
}

/// What the name in front stands for.
#[tactic(auto, unfolding(crate::specs::Expressions::entry_at))]
pub(crate) fn entry<'a, N: Names>(
    names: &N,
    rest: Rest<'a>,
) -> Result<(Entry, Rest<'a>), PhraseError>
    ensures { Gives (λ x. (x.0, lexemes_left x.1)) result (entry_at (N.names names.now) (lexemes_left rest.entry)) }
{
    let (name, after) = name(rest)?;
    match names.find(name) {
        Some(entry) => Ok((entry, after)),
        None => fault(Code::Unknown, rest),
    }
}
