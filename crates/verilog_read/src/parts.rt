//! Single parts of items: widths, new names, the end of an item.

ghost use Rattle.std.specs.Prelude.{◌≡◌, IfOk, IsTrue};
ghost use Rattle.net_core.specs.View.{netlist_of};
ghost use Rattle.design_rules.specs.FormedSyntax.{is_name};
ghost use Rattle.verilog_expression.specs.View.{Gives, lexemes_left};
ghost use Rattle.verilog_read.specs.Declarations.{ends_at};
ghost use Rattle.verilog_read.specs.Header.{fresh_at, range_at};
ghost use Rattle.verilog_read.specs.View.{IsNew};

use crate::partial::Partial;
use std::str;
use verilog_expression::lexemes::{fault, lexeme, name, number, phrase};
use verilog_expression::{Code, Mark, PhraseError, Rest};
use verilog_lex::{Symbol, Token, TokenKind};

/// A width in bits: `[n:0]` says n + 1, for n from 1 to 63, and where no range stands it is 1.
#[tactic(auto, unfolding(crate::specs::Header::range_at))]
pub(crate) fn range<'a>(rest: Rest<'a>) -> Result<(u8, Rest<'a>), PhraseError>
    ensures { Gives (λ x. (x.0, lexemes_left x.1)) result (range_at (lexemes_left rest.entry)) }
{
    match rest.tokens {
        [
            Token {
                kind: TokenKind::Symbol(Symbol::OpenBracket),
                ..
            },
            tokens @ ..,
        ] => {
            let (high, rest) = number(Rest { tokens, ..rest })?;
            let low = [Mark::Symbol(Symbol::Colon), Mark::Number(0)];
            let rest = phrase(&low, rest)?;
            let after = lexeme(Mark::Symbol(Symbol::CloseBracket), rest)?;
            if high > 0 && high < 64 {
                Ok((high as u8 + 1, after))
            } else {
                fault(Code::Width, rest)
            }
        }
        _ => Ok((1, rest)),
    }
}

// A name of the subset is ASCII.
fn as_text(name: &[u8]) -> &str
    requires { IsTrue (is_name name.now) }
    ensures { result.now ≡ name.now }
{
    str::from_utf8(name).unwrap()
}

/// A name that nothing before has.
#[tactic(auto, unfolding(crate::specs::Header::fresh_at))]
pub(crate) fn fresh<'a>(
    partial: &Partial,
    rest: Rest<'a>,
) -> Result<(&'a str, Rest<'a>), PhraseError>
    ensures read { Gives (λ x. (x.0.now, lexemes_left x.1)) result (fresh_at (netlist_of partial.now) (lexemes_left rest.entry)) }
    ensures fresh { IfOk result (λ x. IsNew (netlist_of partial.now) x.0.now) }
{
    let (name, after) = name(rest)?;
    if partial.has_name(name) {
        return fault(Code::Twice, rest);
    }
    Ok((as_text(name), after))
}

/// The semicolon of an item, whose two sides have one width where the flag says so.
#[tactic(auto, unfolding(crate::specs::Declarations::ends_at))]
pub(crate) fn ends<'a>(fits: bool, rest: Rest<'a>) -> Result<Rest<'a>, PhraseError>
    ensures { Gives (λ r. lexemes_left r) result (ends_at fits (lexemes_left rest.entry)) }
{
    let after = lexeme(Mark::Symbol(Symbol::Semicolon), rest)?;
    if fits {
        Ok(after)
    } else {
        fault(Code::Width, rest)
    }
}
