//! Single lexemes in front of what is left to read.

ghost use Rattle.std.specs.Prelude.{◌≡◌, map};
ghost use Rattle.verilog_expression.specs.Lexemes.{behind, constant_at, lexeme_at, name_at, number_at, op_at, op_of, symbol_at};
ghost use Rattle.verilog_expression.specs.View.{Gives, fault_at, mark_lexeme, lexemes_left};

use crate::error::PhraseError;
use crate::fault::Code;
use crate::mark::{Mark, is_mark};
use crate::rest::{Rest, spelled};
use design_rules::formed::is_name;
use net_core::tree::{Op, Word};
use net_core::width::word_fits;
use verilog_lex::{Symbol, Token, TokenKind};

/// A fault at the first token that is left, or at the end of the text where none is left.
pub fn fault<T>(code: Code, rest: Rest) -> Result<T, PhraseError>
    ensures { result ≡ Err (fault_at code (lexemes_left rest.entry)) }
{
    Err(PhraseError::Fault(crate::fault::Fault {
        code,
        left: rest.tokens.len(),
    }))
}

/// What is left after a lexeme that the grammar has here.
#[tactic(auto, unfolding(crate::specs::Lexemes::lexeme_at))]
pub fn lexeme<'a>(mark: Mark, rest: Rest<'a>) -> Result<Rest<'a>, PhraseError>
    ensures { Gives (λ r. lexemes_left r) result (lexeme_at (mark_lexeme mark.entry) (lexemes_left rest.entry)) }
{
    match rest.tokens {
        [token, tokens @ ..] => {
            if is_mark(mark, rest.text, *token) {
                Ok(Rest { tokens, ..rest })
            } else {
                fault(Code::Syntax, rest)
            }
        }
        [] => fault(Code::Syntax, rest),
    }
}

/// What is left after one symbol.
pub(crate) fn symbol<'a>(symbol: Symbol, rest: Rest<'a>) -> Result<Rest<'a>, PhraseError>
    ensures { Gives (λ r. lexemes_left r) result (symbol_at symbol (lexemes_left rest.entry)) }
{
    lexeme(Mark::Symbol(symbol), rest)
}

/// What is left after a phrase of several lexemes.
pub fn phrase<'a>(marks: &[Mark], rest: Rest<'a>) -> Result<Rest<'a>, PhraseError>
    ensures { Gives (λ r. lexemes_left r) result (behind (map mark_lexeme marks.now) (lexemes_left rest.entry)) }
{
    let mut after = rest;
    for mark in marks {
        after = lexeme(*mark, after)?;
    }
    Ok(after)
}

/// A number without a size.
pub fn number<'a>(rest: Rest<'a>) -> Result<(u32, Rest<'a>), PhraseError>
    ensures { Gives (λ x. (x.0, lexemes_left x.1)) result (number_at (lexemes_left rest.entry)) }
{
    match rest.tokens {
        [
            Token {
                kind: TokenKind::Number(number),
                ..
            },
            tokens @ ..,
        ] => Ok((*number, Rest { tokens, ..rest })),
        _ => fault(Code::Syntax, rest),
    }
}

/// A name of the subset: letters, digits and `_`, with a `_` but in `clk` and `ehdl`.
pub fn name<'a>(rest: Rest<'a>) -> Result<(&'a [u8], Rest<'a>), PhraseError>
    ensures { Gives (λ x. (x.0.now, lexemes_left x.1)) result (name_at (lexemes_left rest.entry)) }
{
    let [
        Token {
            kind: TokenKind::Name,
            start,
            end,
        },
        tokens @ ..,
    ] = rest.tokens
    else {
        return fault(Code::Syntax, rest);
    };
    let name = spelled(rest.text, *start, *end);
    if !is_name(name) {
        return fault(Code::Syntax, rest);
    }
    Ok((name, Rest { tokens, ..rest }))
}

/// A constant of 1 to 64 bits, whose value fits them.
pub fn constant<'a>(rest: Rest<'a>) -> Result<(Word, Rest<'a>), PhraseError>
    ensures { Gives (λ x. (x.0, lexemes_left x.1)) result (constant_at (lexemes_left rest.entry)) }
{
    match rest.tokens {
        [
            Token {
                kind: TokenKind::Sized(width, value),
                ..
            },
            tokens @ ..,
        ] => {
            let word = Word {
                width: *width,
                value: *value,
            };
            if word_fits(word) {
                Ok((word, Rest { tokens, ..rest }))
            } else {
                fault(Code::Width, rest)
            }
        }
        [
            Token {
                kind: TokenKind::OutOfRange,
                ..
            },
            ..
        ] => fault(Code::Width, rest),
        _ => fault(Code::Syntax, rest),
    }
}

/// The operator of a symbol.
fn op_of_symbol(symbol: Symbol) -> Option<Op>
    ensures { result ≡ op_of symbol }
{
    match symbol {
        Symbol::Plus => Some(Op::Add),
        Symbol::Minus => Some(Op::Sub),
        Symbol::Star => Some(Op::Mul),
        Symbol::And => Some(Op::And),
        Symbol::Or => Some(Op::Or),
        Symbol::Xor => Some(Op::Xor),
        Symbol::ShiftLeft => Some(Op::ShiftLeft),
        Symbol::ShiftRight => Some(Op::ShiftRight),
        Symbol::Equal => Some(Op::Equal),
        Symbol::NotEqual => Some(Op::NotEqual),
        Symbol::Less => Some(Op::Less),
        Symbol::LessEqual => Some(Op::LessEqual),
        Symbol::Greater => Some(Op::Greater),
        Symbol::GreaterEqual => Some(Op::GreaterEqual),
        _ => None,
    }
}

/// An operator between two operands.
pub(crate) fn operator<'a>(rest: Rest<'a>) -> Result<(Op, Rest<'a>), PhraseError>
    ensures { Gives (λ x. (x.0, lexemes_left x.1)) result (op_at (lexemes_left rest.entry)) }
{
    match rest.tokens {
        [
            Token {
                kind: TokenKind::Symbol(symbol),
                ..
            },
            tokens @ ..,
        ] => match op_of_symbol(*symbol) {
            Some(op) => Ok((op, Rest { tokens, ..rest })),
            None => fault(Code::Syntax, rest),
        },
        _ => fault(Code::Syntax, rest),
    }
}
