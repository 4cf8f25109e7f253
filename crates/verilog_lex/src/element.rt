//! What a text begins with.

ghost use Rattle.std.specs.Prelude.{◌≡◌, ◌≤◌, ◌<◌, length, IsTrue};
ghost use Rattle.std.specs.List.{prefix_len};
ghost use Rattle.verilog_lex.specs.Bytes.{begins_with, begins_word, is_comment_byte, is_digit, is_space, is_word_byte};
ghost use Rattle.verilog_lex.specs.Forms.{IsLongestElement};
ghost use Rattle.verilog_lex.specs.Element.{IsWithin, keyword_of, number_in, element_in, symbol_at, symbol_in, word_kind};

use crate::number::{constant, digits, leading_zero, number, sized};
use crate::token::{KEYWORDS, Keyword, SYMBOLS, Symbol, TokenKind};

/// What a text begins with.
#[derive(Clone, Copy, Debug, PartialEq, Eq)]
pub enum LexicalElement {
    /// A space or a comment, and its length.
    Separator(usize),
    /// A token and its length.
    Token(TokenKind, usize),
    /// Neither.
    Nothing,
}

fn is_space_byte(c: u8) -> bool
    ensures { result ≡ is_space c }
{
    c == b' ' || c == b'\t' || c == b'\r' || c == b'\n'
}

pub(crate) fn is_first_of_word(c: u8) -> bool
    ensures { result ≡ begins_word c }
{
    c.is_ascii_alphabetic() || c == b'_'
}

pub(crate) fn is_of_word(c: u8) -> bool
    ensures { result ≡ is_word_byte c }
{
    c.is_ascii_digit() || is_first_of_word(c)
}

fn is_of_comment(c: u8) -> bool
    ensures { result ≡ is_comment_byte c }
{
    c < 128 && c != b'\n'
}

// Whether the text after a `/` goes on to be a comment.
fn is_second_slash(rest: &[u8]) -> bool
    ensures slash { result ≡ begins_with 47 rest.now }
    ensures within { IsTrue result → 0 < length rest.now }
{
    match rest {
        [c, ..] => *c == b'/',
        [] => false,
    }
}

fn comment(text: &[u8]) -> usize
    ensures count { result ≡ prefix_len is_comment_byte text.now }
    ensures within { result ≤ length text.now }
{
    text.iter().take_while(|c| is_of_comment(**c)).count()
}

fn word(text: &[u8]) -> usize
    ensures count { result ≡ prefix_len is_word_byte text.now }
    ensures within { result ≤ length text.now }
{
    text.iter().take_while(|c| is_of_word(**c)).count()
}

pub(crate) fn keyword(word: &[u8]) -> Option<Keyword>
    ensures { result ≡ keyword_of word.now }
{
    KEYWORDS.iter().copied().find(|k| k.text() == word)
}

fn kind_of_word(word: &[u8]) -> TokenKind
    ensures { result ≡ word_kind word.now }
{
    match keyword(word) {
        Some(keyword) => TokenKind::Keyword(keyword),
        None => TokenKind::Name,
    }
}

// The longest symbol in front.
fn symbol(text: &[u8]) -> Option<Symbol>
    ensures { result ≡ symbol_at text.now }
{
    SYMBOLS.iter().copied().find(|s| text.starts_with(s.text()))
}

fn symbol_element(text: &[u8]) -> LexicalElement
    ensures symbol { result ≡ symbol_in text.now }
    ensures within { IsWithin result (length text.now) }
{
    match symbol(text) {
        Some(symbol) => LexicalElement::Token(TokenKind::Symbol(symbol), symbol.text().len()),
        None => LexicalElement::Nothing,
    }
}

// A run of digits, and what of a constant follows it.
fn number_element(text: &[u8]) -> LexicalElement
    ensures number { result ≡ number_in text.now }
    ensures within { 0 < prefix_len is_digit text.now → IsWithin result (length text.now) }
{
    let (size, after) = text.split_at(digits(text));
    if leading_zero(size) {
        return LexicalElement::Nothing;
    }
    let value = number(10, size);
    match constant(after) {
        Some((radix, len)) => LexicalElement::Token(
            sized(value, number(radix, &after[2..2 + len])),
            size.len() + 2 + len,
        ),
        None if value <= 65536 => LexicalElement::Token(
            TokenKind::Number(value as u32),
            size.len(),
        ),
        None => LexicalElement::Nothing,
    }
}

fn leading(text: &[u8]) -> LexicalElement
    ensures element { result ≡ element_in text.now }
    ensures within { IsWithin result (length text.now) }
{
    match text {
        [] => LexicalElement::Nothing,
        [c, rest @ ..] => {
            if is_space_byte(*c) {
                LexicalElement::Separator(1)
            } else if *c == b'/' && is_second_slash(rest) {
                LexicalElement::Separator(2 + comment(&rest[1..]))
            } else if c.is_ascii_digit() {
                number_element(text)
            } else if is_first_of_word(*c) {
                let len = word(text);
                LexicalElement::Token(kind_of_word(&text[..len]), len)
            } else {
                symbol_element(text)
            }
        }
    }
}

/// The separator or the token that a text begins with: the longest that there is. A run of digits and
/// a constant are taken whole: with a zero in front of another digit, or above 65,536, they are no
/// token, and neither is a part of them.
pub fn first_element(text: &[u8]) -> LexicalElement
    ensures element { result ≡ element_in text.now }
    ensures longest { IsLongestElement text.now result }
    ensures within { IsWithin result (length text.now) }
{
    leading(text)
}
