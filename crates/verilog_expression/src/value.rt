//! Constants, and nets with their bits.

ghost use Rattle.std.specs.Prelude.{◌≡◌, List};
ghost use Rattle.verilog_lex.specs.Lexeme.{Lexeme};
ghost use Rattle.verilog_expression.specs.declared.entry.Entry.TheVariants as entry;
ghost use Rattle.verilog_expression.specs.Reads.{Read};
ghost use Rattle.net_core.specs.Nets.{TBit, TPartSelect};
ghost use Rattle.net_core.specs.View.{tree_of};
ghost use Rattle.net_core.specs.Width as widths;
ghost use Rattle.verilog_expression.specs.Expressions as phrase;
ghost use Rattle.verilog_expression.specs.View.{Gives, lexemes_left, sized_of};

use crate::error::PhraseError;
use crate::fault::Code;
use crate::lexemes::{constant, fault, number, symbol};
use crate::lookahead::{begins_expression, begins_number};
use crate::rest::Rest;
use net_core::tree::{Expr, Net};
use net_core::width::part_select_width;
use verilog_lex::{Symbol, Token, TokenKind};

/// An expression and what is left after it. Where it has no width, the fault is at the token that ends it.
pub(crate) fn sized<'a>(
    tree: Expr<Net>,
    width: u8,
    rest: Rest<'a>,
    ends: Rest<'a>,
) -> Result<(Expr<Net>, u8, Rest<'a>), PhraseError>
    ensures { Gives sized_of result (phrase.sized (tree_of tree) width (lexemes_left rest.entry) (lexemes_left ends.entry)) }
{
    if width > 0 {
        Ok((tree, width, rest))
    } else {
        fault(Code::Width, ends)
    }
}

// The bits of a net from a high one down to a low one, which end with a bracket.
fn bits<'a>(
    net: Net,
    width: u8,
    high: u32,
    low: u32,
    rest: Rest<'a>,
    ends: Rest<'a>,
) -> Result<(Expr<Net>, u8, Rest<'a>), PhraseError>
    ensures { Gives sized_of result (phrase.sized (TPartSelect net high low) (widths.part_select_width width high low) (lexemes_left rest.entry) (lexemes_left ends.entry)) }
{
    match (u8::try_from(high), u8::try_from(low)) {
        (Ok(high), Ok(low)) => {
            sized(
                Expr::PartSelect(net, high, low),
                part_select_width(width, high, low),
                rest,
                ends,
            )
        }
        _ => fault(Code::Width, ends),
    }
}

// One bit of a net, and a bracket.
fn bit<'a>(
    net: Net,
    width: u8,
    place: u32,
    rest: Rest<'a>,
    ends: Rest<'a>,
) -> Result<(Expr<Net>, u8, Rest<'a>), PhraseError>
    ensures { Gives sized_of result (phrase.sized (TBit net place) (widths.part_select_width width place place) (lexemes_left rest.entry) (lexemes_left ends.entry)) }
{
    match u8::try_from(place) {
        Ok(place) => sized(
            Expr::Bit(net, place),
            part_select_width(width, place, place),
            rest,
            ends,
        ),
        Err(_) => fault(Code::Width, ends),
    }
}

// After `name [` of a value: one bit of it, or its bits from a number down to another.
#[tactic(auto, unfolding(crate::specs::Expressions::select_at, crate::specs::Expressions::part_select_at))]
fn select<'a>(net: Net, width: u8, rest: Rest<'a>) -> Result<(Expr<Net>, u8, Rest<'a>), PhraseError>
    ensures { Gives sized_of result (phrase.select_at net width (lexemes_left rest.entry)) }
{
    let (high, rest) = number(rest)?;
    match rest.tokens {
        [
            Token {
                kind: TokenKind::Symbol(Symbol::Colon),
                ..
            },
            tokens @ ..,
        ] => {
            let (low, ends) = number(Rest { tokens, ..rest })?;
            let rest = symbol(Symbol::CloseBracket, ends)?;
            bits(net, width, high, low, rest, ends)
        }
        _ => {
            let after = symbol(Symbol::CloseBracket, rest)?;
            bit(net, width, high, after, rest)
        }
    }
}

/// A constant.
#[tactic(auto, unfolding(crate::specs::Expressions::constant_expr_at))]
pub(crate) fn constant_expr<'a>(rest: Rest<'a>) -> Result<(Expr<Net>, u8, Rest<'a>), PhraseError>
    ensures { Gives sized_of result (phrase.constant_expr_at (lexemes_left rest.entry)) }
{
    let (word, rest) = constant(rest)?;
    Ok((Expr::Const(word), word.width, rest))
}

// In the brackets after the name of a value, whose tokens `own` are.
fn in_value<'a>(
    own: Rest<'a>,
    net: Net,
    width: u8,
    rest: Rest<'a>,
) -> Result<(Expr<Net>, u8, Rest<'a>), PhraseError>
    ensures { Gives sized_of result (phrase.in_value (lexemes_left own.entry) net width (lexemes_left rest.entry)) }
{
    if begins_number(rest) {
        select(net, width, rest)
    } else if begins_expression(rest) {
        fault(Code::Unknown, own)
    } else {
        fault(Code::Syntax, rest)
    }
}

/// After the name of a value: it is the first of the tokens `own`.
#[tactic(auto, unfolding(crate::specs::Expressions::named_at))]
pub(crate) fn behind_value<'a>(
    own: Rest<'a>,
    net: Net,
    width: u8,
    rest: Rest<'a>,
) -> Result<(Expr<Net>, u8, Rest<'a>), PhraseError>
    ensures { (expr : List Lexeme → Read phrase.Sized) → Gives sized_of result (phrase.named_at expr (lexemes_left own.entry) (entry.Value net width) (lexemes_left rest.entry)) }
{
    match rest.tokens {
        [
            Token {
                kind: TokenKind::Symbol(Symbol::OpenBracket),
                ..
            },
            tokens @ ..,
        ] => in_value(own, net, width, Rest { tokens, ..rest }),
        _ => Ok((Expr::Read(net), width, rest)),
    }
}
