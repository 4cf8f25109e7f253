//! Right sides of wires.

ghost use Rattle.std.specs.Prelude.{◌≡◌};
ghost use Rattle.verilog_expression.specs.Rights.{division_at, plain_at, right_at, value_at};
ghost use Rattle.verilog_expression.specs.View.{Gives, right_sized, lexemes_left};

use crate::entry::Entry;
use crate::error::PhraseError;
use crate::expr::expression;
use crate::fault::Code;
use crate::lexemes::fault;
use crate::names::{Names, entry};
use crate::rest::Rest;
use net_core::tree::{Net, Right};
use std::alloc::Global;
use verilog_lex::{Symbol, Token, TokenKind};

// The name of a net that can be read, and the net's width.
#[tactic(auto, unfolding(crate::specs::Rights::value_at))]
fn value<'a, N: Names>(names: &N, rest: Rest<'a>) -> Result<(Net, u8, Rest<'a>), PhraseError>
    ensures { Gives (λ x. ((x.0, x.1), lexemes_left x.2)) result (value_at (N.names names.now) (lexemes_left rest.entry)) }
{
    let (entry, after) = entry(names, rest)?;
    match entry {
        Entry::Value { net, width } => Ok((net, width, after)),
        _ => fault(Code::Unknown, rest),
    }
}

// Two names of one width: the first begins the tokens `own`, and the second stands after the operator.
#[tactic(auto, unfolding(crate::specs::Rights::division_at))]
fn division<'a, N: Names>(
    names: &N,
    quotient: bool,
    own: Rest<'a>,
    rest: Rest<'a>,
) -> Result<(Right<Net>, u8, Rest<'a>), PhraseError>
    ensures { Gives right_sized result (division_at (N.names names.now) quotient (lexemes_left own.entry) (lexemes_left rest.entry)) }
{
    let (a, width, _behind) = value(names, own)?;
    let (b, other, after) = value(names, rest)?;
    if width != other {
        return fault(Code::Width, rest);
    }
    if quotient {
        Ok((Right::Quotient(a, b), width, after))
    } else {
        Ok((Right::Remainder(a, b), width, after))
    }
}

#[tactic(auto, unfolding(crate::specs::Rights::plain_at))]
fn plain<'a, N: Names>(
    alloc: Global,
    names: &N,
    rest: Rest<'a>,
) -> Result<(Right<Net>, u8, Rest<'a>), PhraseError>
    ensures { Gives right_sized result (plain_at (N.names names.now) (lexemes_left rest.entry)) }
{
    let (value, width, rest) = expression(alloc, names, rest)?;
    Ok((Right::Plain(value), width, rest))
}

/// The right side of a wire in front of what is left, its width in bits, and what is left after it. It is the first fault
/// that is returned, unless memory runs out.
#[tactic(auto, unfolding(crate::specs::Rights::right_at))]
pub fn right_side<'a, N: Names>(
    alloc: Global,
    names: &N,
    rest: Rest<'a>,
) -> Result<(Right<Net>, u8, Rest<'a>), PhraseError>
    ensures { Gives right_sized result (right_at (N.names names.now) (lexemes_left rest.entry)) }
{
    match rest.tokens {
        [
            Token {
                kind: TokenKind::Name,
                ..
            },
            Token {
                kind: TokenKind::Symbol(Symbol::Slash),
                ..
            },
            tokens @ ..,
        ] => division(names, true, rest, Rest { tokens, ..rest }),
        [
            Token {
                kind: TokenKind::Name,
                ..
            },
            Token {
                kind: TokenKind::Symbol(Symbol::Percent),
                ..
            },
            tokens @ ..,
        ] => division(names, false, rest, Rest { tokens, ..rest }),
        _ => plain(alloc, names, rest),
    }
}
