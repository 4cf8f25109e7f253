//! Lexemes that the grammar has at a place.

ghost use Rattle.std.specs.Prelude.{◌≡◌};
ghost use Rattle.verilog_lex.specs.Lexeme.{lexeme_of};
ghost use Rattle.verilog_expression.specs.Lexemes.{same_lexeme};
ghost use Rattle.verilog_expression.specs.View.{mark_lexeme};

use crate::rest::spelled;
use verilog_lex::{Keyword, Symbol, Token, TokenKind};

/// A lexeme that the grammar has at a place.
#[derive(Clone, Copy)]
pub enum Mark<'a> {
    Name(&'a [u8]),
    Keyword(Keyword),
    Number(u32),
    Symbol(Symbol),
}

/// Whether a token of a text is this lexeme.
pub(crate) fn is_mark(mark: Mark, text: &[u8], token: Token) -> bool
    ensures { result ≡ same_lexeme (mark_lexeme mark.entry) (lexeme_of text.now token) }
{
    match (mark, token.kind) {
        (Mark::Name(name), TokenKind::Name) => name == spelled(text, token.start, token.end),
        (Mark::Keyword(a), TokenKind::Keyword(b)) => a.text() == b.text(),
        (Mark::Number(a), TokenKind::Number(b)) => a == b,
        (Mark::Symbol(a), TokenKind::Symbol(b)) => a.text() == b.text(),
        _ => false,
    }
}
