//! The tokens of a text.

ghost use Rattle.std.specs.Prelude.{◌≡◌, ℕ, List, length, IfOk, Ok, Err};
ghost use Rattle.verilog_lex.specs.declared.token.Token.{Token};
ghost use Rattle.verilog_lex.specs.Lexeme.{Lexeme, Lexes, ReadsAs, lexemes_of};
ghost use Rattle.verilog_lex.specs.Tokens.{AreSpans, Gives, IsStuck, Leads, tokens_in};

use crate::element::{LexicalElement, first_element};
use crate::token::{LexError, Token};
use std::alloc::Global;

/// The tokens of a text, in order. A place that begins neither a separator nor a token is an error:
/// the first such place is reported, and nothing after it is read.
pub fn tokens(alloc: Global, text: &[u8]) -> Result<Vec<Token>, LexError>
    // The text is these tokens, with separators between and around them.
    ensures found { IfOk result (λ v. Leads text.now 0 v.items (length text.now)) }
    // It is no others.
    ensures only { (ts : List Token) → Leads text.now 0 ts (length text.now) → Gives result (Ok ts) }
    // The tokens and separators from the text's begin on lead to the place of an error.
    ensures stuck { (at : ℕ) → result ≡ Err (LexError.At at) → IsStuck text.now at }
    // Their lexemes are those that the text spells.
    ensures lexes { IfOk result (λ v. Lexes text.now (lexemes_of text.now v.items)) }
    ensures spelled { (ls : List Lexeme) → Lexes text.now ls → ReadsAs text.now result ls }
    ensures spans { IfOk result (λ v. AreSpans 0 v.items (length text.now)) }
    ensures exact { Gives result (tokens_in text.now) }
{
    let mut all = Vec::new(alloc);
    let mut at = 0;
    while at < text.len() {
        match first_element(&text[at..]) {
            LexicalElement::Separator(len) => at += len,
            LexicalElement::Token(kind, len) => {
                let token = Token {
                    kind,
                    start: at,
                    end: at + len,
                };
                if all.push(token).is_err() {
                    return Err(LexError::NoMemory);
                }
                at += len;
            }
            LexicalElement::Nothing => return Err(LexError::At { at }),
        }
    }
    Ok(all)
}
