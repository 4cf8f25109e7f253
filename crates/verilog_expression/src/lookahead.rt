//! What stands in front.

ghost use Rattle.std.specs.Prelude.{◌≡◌};
ghost use Rattle.verilog_expression.specs.Lexemes.{begins_expression, begins_number, symbol_begins_expression};
ghost use Rattle.verilog_expression.specs.View.{Finds, comma_at, end_at, lexemes_left};

use crate::rest::{Rest, spelled};
use design_rules::formed::is_name;
use verilog_lex::{Keyword, Symbol, Token, TokenKind};

/// Whether a number stands in front.
pub(crate) fn begins_number(rest: Rest) -> bool
    ensures { result ≡ begins_number (lexemes_left rest.entry) }
{
    match rest.tokens {
        [
            Token {
                kind: TokenKind::Number(_),
                ..
            },
            ..
        ] => true,
        _ => false,
    }
}

fn symbol_begins(symbol: Symbol) -> bool
    ensures { result ≡ symbol_begins_expression symbol }
{
    match symbol {
        Symbol::Not | Symbol::Or | Symbol::OpenParenthesis | Symbol::OpenBrace => true,
        _ => false,
    }
}

/// Whether an expression may begin in front.
pub(crate) fn begins_expression(rest: Rest) -> bool
    ensures { result ≡ begins_expression (lexemes_left rest.entry) }
{
    match rest.tokens {
        [Token { kind, start, end }, ..] => match kind {
            TokenKind::Sized(_, _) | TokenKind::OutOfRange => true,
            TokenKind::Name => is_name(spelled(rest.text, *start, *end)),
            TokenKind::Symbol(symbol) => symbol_begins(*symbol),
            _ => false,
        },
        [] => false,
    }
}

/// What is left after a comma, where one stands in front.
pub(crate) fn comma<'a>(rest: Rest<'a>) -> Option<Rest<'a>>
    ensures { Finds (λ r. lexemes_left r) result (comma_at (lexemes_left rest.entry)) }
{
    match rest.tokens {
        [
            Token {
                kind: TokenKind::Symbol(Symbol::Comma),
                ..
            },
            tokens @ ..,
        ] => Some(Rest { tokens, ..rest }),
        _ => None,
    }
}

/// What is left after the `end` of a block, where it stands in front.
pub(crate) fn block_end<'a>(rest: Rest<'a>) -> Option<Rest<'a>>
    ensures { Finds (λ r. lexemes_left r) result (end_at (lexemes_left rest.entry)) }
{
    match rest.tokens {
        [
            Token {
                kind: TokenKind::Keyword(Keyword::End),
                ..
            },
            tokens @ ..,
        ] => Some(Rest { tokens, ..rest }),
        _ => None,
    }
}
